use iri_text::{Show, write_to_slice};

// A value shows this text, and needs as many bytes as it has.
fn shows<T: Show + Drop>(value: T, want: &str) -> bool {
    let mut buf = [0u8; 40];
    match write_to_slice(&mut buf, &value) {
        Ok(text) => text == want,
        Err(_) => false,
    }
}

#[test]
fn least_and_greatest_unsigned(rt: HostRuntime) {
    let greatest = "340282366920938463463374607431768211455";
    assert!(rt; shows(u8::MIN, "0") && shows(u8::MAX, "255"));
    assert!(rt; shows(u16::MIN, "0") && shows(u16::MAX, "65535"));
    assert!(rt; shows(u32::MIN, "0") && shows(u32::MAX, "4294967295"));
    assert!(rt; shows(u64::MIN, "0") && shows(u64::MAX, "18446744073709551615"));
    assert!(rt; shows(usize::MIN, "0") && shows(usize::MAX, "18446744073709551615"));
    assert!(rt; shows(u128::MIN, "0") && shows(u128::MAX, greatest));
}

#[test]
fn least_and_greatest_signed(rt: HostRuntime) {
    let least = "-170141183460469231731687303715884105728";
    let greatest = "170141183460469231731687303715884105727";
    assert!(rt; shows(i8::MIN, "-128") && shows(i8::MAX, "127"));
    assert!(rt; shows(i16::MIN, "-32768") && shows(i16::MAX, "32767"));
    assert!(rt; shows(i32::MIN, "-2147483648") && shows(i32::MAX, "2147483647"));
    assert!(rt; shows(i64::MIN, "-9223372036854775808") && shows(i64::MAX, "9223372036854775807"));
    assert!(rt;
        shows(isize::MIN, "-9223372036854775808") && shows(isize::MAX, "9223372036854775807")
    );
    assert!(rt; shows(i128::MIN, least) && shows(i128::MAX, greatest));
}
