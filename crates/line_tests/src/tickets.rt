//! Every kind of answer line, buffers at the edge, and tickets that are handed back.
use lines::{Answer, Desk, Kept, LineRefusal};
use refusal::{Layer, Refusal};
use std::str;

/// A refusal by `layer`.
fn refused(number: u8, layer: Layer, place: u8) -> Answer<'static> {
    Answer::Refused(Refusal {
        number,
        layer,
        place,
    })
}

/// The answer line that is written to the front of `out`; all of them are text here.
fn line_of<'o>(out: &'o mut [u8; 320], answer: Answer) -> &'o str {
    let out = &mut out[..];
    let mut desk = Desk;
    let ticket = desk.take(b"size A0", out).unwrap();
    let end = ticket.answer(out, answer).unwrap();
    str::from_utf8(&out[..end]).unwrap_or("")
}

#[test]
fn every_kind_of_line(rt: HostRuntime) {
    let mut out = [b'.'; 320];
    let capability = [
        0x50, 0x55, 0x4d, 0x50, 0x30, 0x31, 0, 0, 0x41, 0xff, 0, 0, 0, 0, 0x0f, 0xa0,
    ];
    for (answer, expected) in [
        (Answer::Done, "ok"),
        (
            Answer::Capability(capability),
            "ok 50554d503031000041ff000000000fa0",
        ),
        (Answer::Bytes(b""), "ok"),
        (Answer::Bytes(b"x"), "ok x"),
        (Answer::Bytes(b"2.5 l/s"), "ok 2.5 l/s"),
        (Answer::Number(0), "ok 0"),
        (Answer::Number(u64::MAX), "ok 18446744073709551615"),
        (refused(30, Layer::Line, 2), "no 30 L 2"),
        (refused(255, Layer::Store, 255), "no 255 S 255"),
    ] {
        assert!(rt; line_of(&mut out, answer) == expected, "{expected}");
    }
}

#[test]
fn bytes_at_the_edge(rt: HostRuntime) {
    let bytes = [b'x'; 256];
    let mut out = [b'.'; 320];
    for bytes in [&bytes[..255], &bytes] {
        assert!(rt; line_of(&mut out, Answer::Bytes(bytes)).len() == 258);
        assert!(rt; [out[2], out[257], out[258]] == [b' ', b'x', b'.']);
    }
}

#[test]
fn a_short_buffer_takes_no_line(rt: HostRuntime) {
    let mut desk = Desk;
    let short = [b'.'; 319];
    for buffer in [&short[..], &[]] {
        assert!(rt; desk.take(b"size A0", buffer).unwrap_err() == LineRefusal::ShortBuffer);
    }
}

#[test]
fn a_short_buffer_hands_the_ticket_back(rt: HostRuntime) {
    let mut out = [b'.'; 320];
    let mut desk = Desk;
    let ticket = desk.take(b"size A0", &out).unwrap();
    let Kept { ticket, refusal } = ticket
        .answer(&mut out[..319], Answer::Number(7))
        .unwrap_err();
    assert!(rt; refusal == LineRefusal::ShortBuffer);
    assert!(rt; out == [b'.'; 320]);
    assert!(rt; ticket.line() == b"size A0".as_slice());
    assert!(rt; ticket.answer(&mut out, Answer::Number(7)).unwrap() == 4);
    assert!(rt; out.starts_with(b"ok 7.."));
}

#[test]
fn lines_one_after_the_other(rt: HostRuntime) {
    let mut out = [b'.'; 320];
    let mut desk = Desk;
    for line in [b"a".as_slice(), b"bc"] {
        let ticket = desk.take(line, &out).unwrap();
        let length = ticket.line().len();
        assert!(rt; ticket.answer(&mut out, Answer::Bytes(line)).unwrap() == 3 + length);
    }
    assert!(rt; out.starts_with(b"ok bc."));
}

#[test]
fn refusals_of_a_line(rt: HostRuntime) {
    for (e, number, place) in [
        (LineRefusal::ShortBuffer, 32, 0),
        (LineRefusal::BadLine(0), 30, 0),
        (LineRefusal::BadLine(5), 30, 5),
        (LineRefusal::EmptyPocket(2), 31, 2),
    ] {
        let r = Refusal::from(e);
        assert!(rt;
            (r.number, r.layer, r.place) == (number, Layer::Line, place),
            "{number}"
        );
    }
}
