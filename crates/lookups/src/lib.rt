// Look-ups in tables that answer for every number.
#![tactic(auto)]

mod records;

pub use records::{
    communicator, dependency, is_abstract, is_number, item, mode, module, module_of, owner_of,
    read, switch, task, write,
};
