use crate::pieces::{push_bytes, push_decimal, push_hex, push_text};
use std::alloc::Global;
use std::test::Fail;

/// A number in decimal and in hexadecimal digits.
fn digits_of(alloc: Global, number: u64) -> Result<Vec<u8>, Fail> {
    let mut out = Vec::new(alloc);
    push_decimal(&mut out, number)?;
    push_bytes(&mut out, b" ".as_slice())?;
    push_hex(&mut out, number)?;
    push_text(&mut out, ".")?;
    Ok(out)
}

#[test]
fn writes_digits(rt: HostRuntime) -> Result<(), Fail> {
    let rows = [
        (0, "0 0."),
        (9, "9 9."),
        (10, "10 a."),
        (16, "16 10."),
        (167_837_706, "167837706 a01000a."),
        (
            18_446_744_073_709_551_615,
            "18446744073709551615 ffffffffffffffff.",
        ),
    ];
    for (number, want) in rows {
        let got = digits_of(rt.alloc(), number)?;
        assert_eq!(rt; got.as_slice(), want.as_bytes());
    }
    Ok(())
}
