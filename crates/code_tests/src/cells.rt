// The six bytes of an instruction, from its letters and its two operands.
pub(super) fn cell(letters: [u8; 2], first: u16, second: u16) -> [u8; 6] {
    let [m, n] = letters;
    let [a, b] = first.to_be_bytes();
    let [c, d] = second.to_be_bytes();
    [m, n, a, b, c, d]
}
