// Codes and images as a whole: lengths, ends, the order of refusals, and the buffer.
use code::{CodeStore, Instruction, MOST_INSTRUCTIONS};
use fault::Fault;
use image::{read, write};
use std::test::Fail;

const RETURNS: [Instruction; 4097] = [Instruction::Return; 4097];

#[test]
fn lengths_and_ends(rt: HostRuntime) {
    assert_eq!(rt;
        CodeStore::new(&[]).err(),
        Some(Fault::BadCode { place: 0 })
    );
    assert_eq!(rt; CodeStore::new(&RETURNS[..1]).err(), None);
    assert_eq!(rt; CodeStore::new(&RETURNS[..4096]).err(), None);
    assert_eq!(rt;
        CodeStore::new(&RETURNS).err(),
        Some(Fault::BadCode { place: 0 })
    );
    let mut code = [
        Instruction::Return,
        Instruction::Write { line: 128 },
        Instruction::Call { address: 0 },
    ];
    assert_eq!(rt;
        CodeStore::new(&code).err(),
        Some(Fault::BadCode { place: 0 })
    );
    code[2] = Instruction::Jump { address: 9 };
    assert_eq!(rt;
        CodeStore::new(&code).err(),
        Some(Fault::BadCode { place: 1 })
    );
    assert_eq!(rt; CodeStore::new(&code[..1]).err(), None);
}

// The first `len` of an array of returns.
fn returns(len: usize) -> Result<CodeStore, Fault> {
    CodeStore::from_array_len([Instruction::Return; MOST_INSTRUCTIONS], len)
}

#[test]
fn lengths_and_ends_within_an_array(rt: HostRuntime) {
    assert_eq!(rt; returns(0).err(), Some(Fault::BadCode { place: 0 }));
    assert_eq!(rt; returns(1).err(), None);
    assert_eq!(rt; returns(4096).err(), None);
    assert_eq!(rt; returns(4097).err(), Some(Fault::BadCode { place: 0 }));
    assert_eq!(rt;
        returns(usize::MAX).err(),
        Some(Fault::BadCode { place: 0 })
    );
    let mut code = [Instruction::Return; MOST_INSTRUCTIONS];
    code[1] = Instruction::Write { line: 128 };
    code[2] = Instruction::Call { address: 0 };
    assert_eq!(rt;
        CodeStore::from_array_len(code, 3).err(),
        Some(Fault::BadCode { place: 0 })
    );
    code[2] = Instruction::Jump { address: 9 };
    assert_eq!(rt;
        CodeStore::from_array_len(code, 3).err(),
        Some(Fault::BadCode { place: 1 })
    );
    assert_eq!(rt; CodeStore::from_array_len(code, 1).err(), None);
}

#[test]
fn the_rest_of_an_array_is_never_seen(rt: HostRuntime) -> Result<(), Fail> {
    let mut code = [Instruction::Return; MOST_INSTRUCTIONS];
    code[0] = Instruction::Jump { address: 0 };
    code[1] = Instruction::Jump { address: 0 };
    let store = CodeStore::from_array_len(code, 1)?;
    assert_eq!(rt; store.len(), 1);
    assert_eq!(rt; store.fetch(0), Instruction::Jump { address: 0 });
    assert_eq!(rt; store.fetch(1), Instruction::Return);
    assert_eq!(rt; store.fetch(65535), Instruction::Return);
    Ok(())
}

#[test]
fn past_the_end_stands_a_return(rt: HostRuntime) -> Result<(), Fail> {
    let code = [Instruction::Jump { address: 0 }; 2];
    let store = CodeStore::new(&code[..1])?;
    assert_eq!(rt; store.len(), 1);
    assert_eq!(rt; store.fetch(0), Instruction::Jump { address: 0 });
    assert_eq!(rt; store.fetch(1), Instruction::Return);
    assert_eq!(rt; store.fetch(65535), Instruction::Return);
    Ok(())
}

#[test]
fn heads_and_lengths(rt: HostRuntime) {
    let none = Some(Fault::NoImage { place: 0 });
    assert_eq!(rt; read(b"").err(), none);
    assert_eq!(rt; read(b"HE\0").err(), none);
    assert_eq!(rt; read(b"HE\0\x01").err(), none);
    assert_eq!(rt; read(b"HE\0\0RT\0\0\0\0").err(), none);
    assert_eq!(rt; read(b"EH\0\x01RT\0\0\0\0").err(), none);
    assert_eq!(rt; read(b"HE\0\x01RT\0\0\0\0\0").err(), none);
    assert_eq!(rt; read(b"HE\0\0").err(), Some(Fault::BadCode { place: 0 }));
    assert_eq!(rt; read(b"HE\0\x01RT\0\0\0\0").err(), None);
}

#[test]
fn what_is_no_image_comes_first(rt: HostRuntime) {
    let place = read(b"HE\0\x03CW\xff\0\0\0RT\0\0\0\x01PU\0\0\0\0").err();
    assert_eq!(rt; place, Some(Fault::NoImage { place: 1 }));
    let end = read(b"HE\0\x02CW\xff\0\0\0PU\0\x04\0\0").err();
    assert_eq!(rt; end, Some(Fault::BadCode { place: 0 }));
    let first = read(b"HE\0\x03RT\0\0\0\0PU\0\x04\0\0JP\0\x03\0\0").err();
    assert_eq!(rt; first, Some(Fault::BadCode { place: 1 }));
}

// The image of 4,097 returns.
fn many() -> [u8; 24586] {
    let mut bytes = [0; 24586];
    bytes[..4].copy_from_slice(b"HE\x10\x01");
    let (cells, _) = bytes[4..].as_chunks_mut();
    for cell in cells {
        *cell = *b"RT\0\0\0\0";
    }
    bytes
}

#[test]
fn too_many_instructions(rt: HostRuntime) {
    let mut bytes = many();
    assert_eq!(rt; read(&bytes).err(), Some(Fault::BadCode { place: 0 }));
    bytes[24585] = 1;
    assert_eq!(rt; read(&bytes).err(), Some(Fault::NoImage { place: 4096 }));
    bytes[3] = 0;
    let all: &[u8] = &bytes;
    assert!(rt; all.len() > 24580);
    assert_eq!(rt; read(&all[0..24580]).err(), None);
}

#[test]
fn the_buffer_is_kept(rt: HostRuntime) -> Result<(), Fail> {
    let store = CodeStore::new(&[Instruction::Return])?;
    let mut long = [7; 12];
    assert_eq!(rt; write(&store, &mut long)?, 10);
    assert_eq!(rt; long, *b"HE\0\x01RT\0\0\0\0\x07\x07");
    let mut short = [7; 9];
    assert_eq!(rt;
        write(&store, &mut short),
        Err(Fault::ShortBuffer { needed: 10 })
    );
    assert_eq!(rt; short, [7; 9]);
    Ok(())
}
