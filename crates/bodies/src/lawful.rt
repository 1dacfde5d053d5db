// The law body.
ghost use Rattle.bodies.specs.Bodies.{law_works, law_tests};

use crate::Law;
use plant::Body;

impl Body for Law {
    ghost works = { λ b _ ins. law_works b.set ins };

    ghost tests = { λ b _ vs. law_tests b.set vs };

    fn work(&self, task: u8, inputs: [i32; 4]) -> [i32; 4] {
        [self.set.saturating_sub(inputs[0]); 4]
    }

    fn test(&self, condition: u8, values: &[i32; 32]) -> bool {
        values[0] > self.set
    }
}
