//! Whole commands, word for word, with the text that they print.
use crate::command::restrict_words;
use crate::report::Listed;
use crate::words::Words;
use std::alloc::{AllocError, Global};
use std::test::Fail;

/// The text that a command of these words prints.
fn printed(heap: Global, words: Words) -> Result<String, AllocError> {
    match restrict_words(words) {
        Ok(report) => report.to_string(heap),
        Err(failure) => failure.to_string(heap),
    }
}

/// Whether a command of these four words prints this line.
fn prints(
    heap: Global,
    letter: &[u8],
    modulus: &[u8],
    capability: &[u8],
    mask: &[u8],
    line: &str,
) -> bool {
    let words = Words {
        letter,
        modulus,
        capability,
        mask,
    };
    match printed(heap, words) {
        Ok(text) => text.as_str() == line,
        Err(_) => false,
    }
}

const OWNER: &[u8] = b"50554d503031000041ff0000000041a7";

#[test]
fn a_right_is_given_up(rt: HostRuntime) -> Result<(), Fail> {
    let words = Words {
        letter: b"P",
        modulus: b"2147483647",
        capability: OWNER,
        mask: b"fe",
    };
    assert_eq!(rt;
        printed(rt.alloc(), words)?.as_str(),
        concat!(
            "port 50554d503031\nobject 65\nrights 0 1 2 3 4 5 6 7\ndropped 0\n",
            "50554d503031000041fe00004431b782\n"
        )
    );
    Ok(())
}

#[test]
fn nothing_to_give_up(rt: HostRuntime) -> Result<(), Fail> {
    let words = Words {
        letter: b"D",
        modulus: b"101",
        capability: b"50554d50303100004100000000000003",
        mask: b"00",
    };
    assert_eq!(rt;
        printed(rt.alloc(), words)?.as_str(),
        concat!(
            "port 50554d503031\nobject 65\nrights none\ndropped none\n",
            "50554d50303100004100000000000003\n"
        )
    );
    Ok(())
}

#[test]
fn refusals(rt: HostRuntime) {
    let heap = rt.alloc();
    assert!(rt; prints(heap, b"P", b"2", OWNER, b"fe", "no 4 F 0"));
    assert!(rt; prints(heap, b"D", b"2147483648", OWNER, b"fe", "no 4 F 0"));
    assert!(rt;
        prints(heap, b"P", b"16807", OWNER, b"ff", "no 9 H 0"),
        "the check is the modulus itself"
    );
    assert!(rt; prints(heap, b"D", b"16807", OWNER, b"ff", "no 9 H 0"));
}

#[test]
fn letters_and_moduli_that_cannot_be_read(rt: HostRuntime) {
    let heap = rt.alloc();
    let line = "LETTER is P or D";
    for letter in [b"p".as_slice(), b"S", b"", b"PD"] {
        assert!(rt; prints(heap, letter, b"+", b"", b"", line), "{letter:?}");
    }
    let line = "MODULUS is a decimal of 1 to 15 digits, with no zero in front";
    for word in [b"".as_slice(), b"0101", b"1000000000000000", b"+5"] {
        assert!(rt; prints(heap, b"P", word, b"", b"", line), "{word:?}");
    }
}

#[test]
fn capabilities_and_masks_that_cannot_be_read(rt: HostRuntime) {
    let heap = rt.alloc();
    let line = "CAPABILITY is 32 hexadecimal digits, in small letters";
    for word in [
        b"50554d503031000041ff0000000041".as_slice(),
        b"50554D503031000041ff0000000041a7",
    ] {
        assert!(rt; prints(heap, b"P", b"101", word, b"", line), "{word:?}");
    }
    let line = "MASK is 2 hexadecimal digits, in small letters";
    for mask in [b"f".as_slice(), b"FE", b"0fe"] {
        assert!(rt; prints(heap, b"P", b"101", OWNER, mask, line), "{mask:?}");
    }
}

#[test]
fn rights_by_number(rt: HostRuntime) -> Result<(), Fail> {
    assert_eq!(rt;
        Listed { set: 0x81 }.to_string(rt.alloc())?.as_str(),
        " 0 7"
    );
    Ok(())
}
