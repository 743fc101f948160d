// Lines that are read, and lines that are no form.
use crate::forms::read_call;
use crate::line::LineBuffer;
use market::call::Call;
use market::zone::Side;
use std::test::Fail;

fn is_form(line: &[u8]) -> bool {
    read_call(line).is_some()
}

#[test]
fn reads_each_form(rt: HostRuntime) {
    assert!(rt; is_form(b"(admit 1)"));
    assert!(rt; is_form(b"(begin 1 100 0)"));
    assert!(rt; is_form(b"(enter 1 sale (1 11 1 0 2005 1))"));
    assert!(rt; is_form(b"(withdraw 2 purchase (22 25))"));
    assert!(rt; is_form(b"(close)") && is_form(b"(clear)"));
    assert!(rt; is_form(b"(settle)") && is_form(b"(annul)"));
}

#[test]
fn reads_a_bid(rt: HostRuntime) -> Result<(), Fail> {
    let Some(Call::Enter { zone, side, bid }) = read_call(
        b"(enter 2 purchase (1 22 25 999999999 -50000 70))",
    ) else {
        return Err(Fail::new("no form"));
    };
    assert!(rt; side == Side::Purchase);
    assert_eq!(rt; zone, 2);
    assert_eq!(rt; bid.stamp, 999_999_999);
    assert_eq!(rt; bid.price, -50_000);
    assert_eq!(rt; bid.volume, 70);
    Ok(())
}

#[test]
fn refuses_what_is_no_form(rt: HostRuntime) {
    assert!(rt; !is_form(b"") && !is_form(b"(open)"));
    assert!(rt; !is_form(b"(admit  1)") && !is_form(b"(close) "));
    assert!(rt; !is_form(b"(admit 01)") && !is_form(b"(admit 1234567890)"));
    assert!(rt; !is_form(b"(enter 1 sale (1 11 1 0 -0 1))"));
    assert!(rt; !is_form(b"(enter 1 sale (1 11 1 0 2005 -1))"));
}

#[test]
fn gathers_a_line(rt: HostRuntime) -> Result<(), Fail> {
    let mut buffer = LineBuffer::new();
    assert!(rt; buffer.is_empty());
    for byte in b"(close)" {
        buffer.push(*byte);
    }
    assert!(rt; is_form(buffer.line().ok_or("too long")?));
    for _ in 0..114 {
        buffer.push(b' ');
    }
    assert!(rt; buffer.line().is_none());
    assert!(rt; !buffer.is_empty());
    buffer.clear();
    assert!(rt; buffer.is_empty());
    assert_eq!(rt; buffer.line().ok_or("too long")?.len(), 0);
    Ok(())
}
