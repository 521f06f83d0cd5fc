use super::{assert_case, is_text};
use cspf_addr::{Mask, MaskError};

#[test]
fn masks_of_eight_digits(rt: HostRuntime) {
    let (ten, all) = (Mask::new(10), Mask::new(u32::MAX));
    let are_read = Mask::parse(b"0xA") == Ok(ten) && Mask::parse(b"0xFFffFFff") == Ok(all);
    let are_written = is_text(ten.text(rt.alloc()), "0x0000000a")
        && is_text(Mask::new(0).text(rt.alloc()), "0x00000000");
    let holds = are_read && are_written && all.bits() == u32::MAX;
    assert_case(&rt, "masks", 2, holds);
}

// Whether the text is refused.
fn is_refused(text: &[u8]) -> bool {
    Mask::parse(text) == Err(MaskError::NotAMask)
}

#[test]
fn texts_of_no_masks(rt: HostRuntime) {
    let are_refused = is_refused(b"0x123456789")
        && is_refused(b"0x")
        && is_refused(b"0X1")
        && is_refused(b"0xg");
    assert_case(&rt, "texts of no masks", 4, are_refused);
}
