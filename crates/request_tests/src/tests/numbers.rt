use super::assert_case;
use cspf_addr::number;

#[test]
fn numbers_below_2_to_64(rt: HostRuntime) {
    let are_read = number(b"0") == Some(0)
        && number(b"18446744073709551615") == Some(u64::MAX)
        && number(b"18446744073709551616").is_none();
    let are_refused = number(b"07").is_none() && number(b"+7").is_none() && number(b"").is_none();
    assert_case(&rt, "numbers", 6, are_read && are_refused);
}
