// Each command, each malformed form, and the edges of each width, as lines with what they give.
use crate::*;
use bounded::Bounded;
use format::append;
use std::alloc::{AllocError, Global};
use std::process::Abort;
use std::test::Fail;

fn spelt(heap: Global, bytes: &[u8]) -> Result<String, AllocError> {
    let mut text = String::new(heap);
    for byte in bytes {
        let digits = format!(in heap; "{byte:02x}")?;
        text.push_str(digits.as_str())?;
    }
    Ok(text)
}

// What a line gives, in words.
fn answer(heap: Global, line: &str) -> Result<String, AllocError> {
    match parse(heap, line) {
        Ok(Command::Record(record)) => {
            let mut out = Bounded::<u8, 9>::new(0);
            append(&mut out, record).unwrap();
            spelt(heap, out.as_slice())
        }
        Ok(Command::Bytes(more)) => spelt(heap, more.as_slice()),
        Ok(Command::File(name)) => format!(in heap; "file {name}"),
        Ok(Command::Clear) => String::from_str(heap, "clear"),
        Ok(Command::Records) => String::from_str(heap, "records"),
        Ok(Command::Read) => String::from_str(heap, "read"),
        Ok(Command::Help) => String::from_str(heap, "help"),
        Ok(Command::Heading(text)) => format!(in heap; "heading {text}"),
        Ok(Command::Nothing) => String::from_str(heap, "nothing"),
        Err(misuse) => misuse.to_string(heap),
    }
}

fn holds(rt: &impl Abort, heap: Global, cases: &str) -> Result<(), Fail> {
    for case in cases.lines() {
        let (line, given) = case.split_once(" => ").ok_or(case)?;
        let text = answer(heap, line)?;
        assert_eq!(rt; text.as_str(), given);
    }
    Ok(())
}

// One test for what is taken and one for what is refused.
#[test]
fn taken(rt: HostRuntime) -> Result<(), Fail> {
    holds(&rt, rt.alloc(), TAKEN)
}

#[test]
fn refused(rt: HostRuntime) -> Result<(), Fail> {
    holds(&rt, rt.alloc(), REFUSED)
}

const TAKEN: &str = "\
record CO 2 2 5 => 434f00020200000005\n\
record MU 1 2 => 4d550102\n\
record MO 1 515 => 4d4f010203\n\
record TA 1 2 3 4 1 => 54410102030401\n\
record RD 1 2 3 1029 => 52440102030405\n\
record WR 1 2 3 1029 => 57520102030405\n\
record DP 1 2 3 4 => 445001020304\n\
record SW 1 2 3 => 5357010203\n\
record CO 65535 255 2147483647 => 434fffffff7fffffff\n\
record CO 0 0 -2147483648 => 434f00000080000000\n\
record MU - 255 => 4d55ffff\n\
record MU 255 0 => 4d55ff00\n\
record MU 254 0 => 4d55fe00\n\
record TA 0 0 0 - 9 => 5441000000ff09\n\
record TA 0 0 0 255 0 => 5441000000ff00\n\
bytes 09afAF => 09afaf\n\
\x20 bytes 00 # one => 00\n\
clear => clear\n\
\trecords  => records\n\
read => read\n\
help#me => help\n\
file a.bin => file a.bin\n\
\x20=> nothing\n\
\x20 # clear => nothing\n\
##  two words  => heading two words\n\
";

const REFUSED: &str = "\
record CO 65536 0 0 => expected: record CO PERIOD KIND INITIAL (0 to 65535, 0 to 255, -2147483648 to 2147483647)\n\
record CO 0 256 0 => expected: record CO PERIOD KIND INITIAL (0 to 65535, 0 to 255, -2147483648 to 2147483647)\n\
record CO 0 0 2147483648 => expected: record CO PERIOD KIND INITIAL (0 to 65535, 0 to 255, -2147483648 to 2147483647)\n\
record CO 0 0 -2147483649 => expected: record CO PERIOD KIND INITIAL (0 to 65535, 0 to 255, -2147483648 to 2147483647)\n\
record CO - 0 0 => expected: record CO PERIOD KIND INITIAL (0 to 65535, 0 to 255, -2147483648 to 2147483647)\n\
record CO 2 0x1 0 => expected: record CO PERIOD KIND INITIAL (0 to 65535, 0 to 255, -2147483648 to 2147483647)\n\
record MU 256 0 => expected: record MU OWNER START (each 0 to 255, OWNER 255 or - for none)\n\
record MU 0 - => expected: record MU OWNER START (each 0 to 255, OWNER 255 or - for none)\n\
record MU -1 0 => expected: record MU OWNER START (each 0 to 255, OWNER 255 or - for none)\n\
record MO 1 65536 => expected: record MO MODULE PERIOD (0 to 255, 0 to 65535)\n\
record TA 0 0 0 0 => expected: record TA MODE INPUTS OUTPUTS PARENT FORM (each 0 to 255, PARENT 255 or - for none)\n\
record RD 0 0 0 65536 => expected: record RD TASK INPUT COMMUNICATOR OFFSET (each 0 to 255, OFFSET 0 to 65535)\n\
record WR 0 0 256 0 => expected: record WR TASK OUTPUT COMMUNICATOR OFFSET (each 0 to 255, OFFSET 0 to 65535)\n\
record DP 0 0 - => expected: record DP TASK OUTPUT TO INPUT (each 0 to 255)\n\
record SW 0 0 => expected: record SW MODE CONDITION TARGET (each 0 to 255)\n\
record => expected: record MARK FIELDS with one of the marks CO MU MO TA RD WR DP SW\n\
record XX 1 => expected: record MARK FIELDS with one of the marks CO MU MO TA RD WR DP SW\n\
record co 2 2 5 => expected: record MARK FIELDS with one of the marks CO MU MO TA RD WR DP SW\n\
record C 2 2 5 => expected: record MARK FIELDS with one of the marks CO MU MO TA RD WR DP SW\n\
record COO 2 2 5 => expected: record MARK FIELDS with one of the marks CO MU MO TA RD WR DP SW\n\
record CO => expected: record CO PERIOD KIND INITIAL (0 to 65535, 0 to 255, -2147483648 to 2147483647)\n\
record CO 2 2 => expected: record CO PERIOD KIND INITIAL (0 to 65535, 0 to 255, -2147483648 to 2147483647)\n\
record CO 2 2 5 5 => expected: record CO PERIOD KIND INITIAL (0 to 65535, 0 to 255, -2147483648 to 2147483647)\n\
bytes => expected: bytes HEX with an even number of hexadecimal digits\n\
bytes 0 => expected: bytes HEX with an even number of hexadecimal digits\n\
bytes 00 00 => expected: bytes HEX with an even number of hexadecimal digits\n\
bytes 0g => expected: bytes HEX with an even number of hexadecimal digits\n\
bytes G0 => expected: bytes HEX with an even number of hexadecimal digits\n\
bytes /0 => expected: bytes HEX with an even number of hexadecimal digits\n\
bytes 0: => expected: bytes HEX with an even number of hexadecimal digits\n\
bytes @0 => expected: bytes HEX with an even number of hexadecimal digits\n\
bytes 0` => expected: bytes HEX with an even number of hexadecimal digits\n\
clearly => expected: record, bytes, file, clear, records, read or help\n\
Clear => expected: record, bytes, file, clear, records, read or help\n\
clear all => expected: clear and nothing after it\n\
records 1 => expected: records and nothing after it\n\
read 1 => expected: read and nothing after it\n\
help me => expected: help and nothing after it\n\
file => expected: file NAME with one name that has no blanks\n\
file a b => expected: file NAME with one name that has no blanks\n\
";
