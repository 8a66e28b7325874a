use super::*;

#[test]
fn numbers_have_1_to_20_digits_and_64_bits(rt: HostRuntime) {
    let rows: [(&[u8], Option<u64>); 13] = [
        (b"0", Some(0)),
        (b"0017", Some(17)),
        (b"18446744073709551615", Some(18_446_744_073_709_551_615)),
        (b"00000000000000000005", Some(5)),
        (b"18446744073709551616", None),
        (b"99999999999999999999", None),
        (b"000000000000000000005", None),
        (b"", None),
        (b"+1", None),
        (b"-1", None),
        (b" 1", None),
        (b"1a", None),
        (b"\xff", None),
    ];
    for (i, (text, number)) in rows.into_iter().enumerate() {
        assert_eq!(rt; read_decimal(text), number, "number {i}");
    }
}

#[test]
fn a_text_is_cut_at_its_first_separator(rt: HostRuntime) {
    let (front, rest) = split_first(b"a,b,c", b',');
    assert_eq!(rt; front, b"a".as_slice());
    assert_eq!(rt; rest, Some(b"b,c".as_slice()));
    let (front, rest) = split_first(b"abc", b',');
    assert_eq!(rt; front, b"abc".as_slice());
    assert_eq!(rt; rest, None);
    assert_eq!(rt; find_byte(b"abc", b'c'), Some(2));
    assert_eq!(rt; count_parts(b"a,,b", b','), 3);
}

#[test]
fn a_word_or_a_front_is_taken_off(rt: HostRuntime) {
    let (word, rest) = split_word(b"RETR a b", b' ');
    assert_eq!(rt; word, b"RETR".as_slice());
    assert_eq!(rt; rest, b"a b".as_slice());
    let (word, rest) = split_word(b"NOOP", b' ');
    assert_eq!(rt; word, b"NOOP".as_slice());
    assert_eq!(rt; rest, b"".as_slice());
    assert_eq!(rt;
        strip_front(b"111 Range", b"111 "),
        Some(b"Range".as_slice())
    );
    assert_eq!(rt; strip_front(b"11", b"111 "), None);
}
