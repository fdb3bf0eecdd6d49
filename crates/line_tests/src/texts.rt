//! Words at the edges of what is read, and buffers at the edges of what is written.
use refusal::{Layer, Refusal};
use text::{put, put_decimal, put_hex, put_refusal, read_decimal, read_hex};

#[test]
fn decimals_are_read(rt: HostRuntime) {
    for (word, expected) in [
        (b"0".as_slice(), Some(0)),
        (b"10", Some(10)),
        (b"999999999999999", Some(999_999_999_999_999)),
        (b"", None),
        (b"007", None),
        (b"00", None),
        (b"+5", None),
        (b"5 ", None),
        (b"1000000000000000", None),
    ] {
        assert!(rt; read_decimal(word) == expected, "{word:?}");
    }
}

#[test]
fn hexadecimal_is_read(rt: HostRuntime) {
    assert!(rt; read_hex::<0>(b"") == Some([]));
    for (word, expected) in [
        (b"ff".as_slice(), Some([255])),
        (b"Ff", None),
        (b"fg", None),
        (b"fff", None),
    ] {
        assert!(rt; read_hex::<1>(word) == expected, "{word:?}");
    }
    for (word, expected) in [(b"0fa0".as_slice(), Some([15, 160])), (b"ff", None)] {
        assert!(rt; read_hex::<2>(word) == expected, "{word:?}");
    }
}

#[test]
fn writers_give_the_place_behind(rt: HostRuntime) {
    let mut out = [b'.'; 8];
    assert!(rt; put(&mut out, 0, b"a") == Some(1));
    assert!(rt; put_hex(&mut out, 1, &[0x2f]) == Some(3));
    assert!(rt; put_decimal(&mut out, 4, 1024) == Some(8));
    assert!(rt; out == *b"a2f.1024");
}

#[test]
fn a_buffer_one_too_short_is_untouched(rt: HostRuntime) {
    let mut out = [b'.'; 4];
    assert!(rt; put(&mut out, 2, b"abc").is_none());
    assert!(rt; put_hex(&mut out, 1, &[1, 2]).is_none());
    assert!(rt; put_decimal(&mut out, 0, 12345).is_none());
    assert!(rt; put(&mut out, 5, b"").is_none());
    assert!(rt; out == *b"....");
}

#[test]
fn a_refusal_is_one_line(rt: HostRuntime) {
    let refusal = Refusal {
        number: 4,
        layer: Layer::Family,
        place: 0,
    };
    let mut out = [b'.'; 8];
    assert!(rt; put_refusal(&mut out, 1, refusal).is_none());
    assert!(rt; out == *b"........");
    assert!(rt; put_refusal(&mut out, 0, refusal) == Some(8));
    assert!(rt; out == *b"no 4 F 0");
}
