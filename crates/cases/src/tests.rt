use script::account_text;
use std::test::Fail;

// Cash for three desks: an opening at its edge, one beyond it, a desk too many, and no hedge need at the close.
#[test]
fn a_day_of_cash(rt: HostRuntime) -> Result<(), Fail> {
    let script =
        b"F\x03\x00\x01\x05\x02\x00\x00O\x00\x01\x3b\x9a\xca\x00O\x00\x01\x3b\x9a\xca\x01O\x00\x03\x00\x00\x00\x01GZQ";
    let text = account_text(rt.alloc(), script)?;
    let account =
        "F\nO\n! 6 B 8 15\n! 5 B 3 22\nG\nZ 1\n= 0 1 1000000000\n= 1 1 1000000000\n= 2 1 1000000000\nQ 1\n";
    assert_eq!(rt; text.as_str(), account);
    Ok(())
}

// Forming refused for each reason in turn, then formed; a command that is not for the stage ends the script.
#[test]
fn forming_refused(rt: HostRuntime) -> Result<(), Fail> {
    let script =
        b"F\x01\x06\x00\x04\x09\x00\x00F\x04\x02\x04\x03\x03\x00\x00F\x04\x02\x04\x03\x01\x00\x00F\x04\x01\x04\x03\x01\x80\x00F\x07\x01\x04\x03\x01\x00\x00F\x02\x00\x04\x05\x02\x00\x00Q";
    let text = account_text(rt.alloc(), script)?;
    let account = "! 1 D 0 0\n! 1 D 4 8\n! 2 D 2 16\n! 3 D 1 24\n! 4 D 7168 32\nF\n! 13 S 48 48\n";
    assert_eq!(rt; text.as_str(), account);
    Ok(())
}

// A command cut short, an unknown one, and an empty script.
#[test]
fn reading_refused(rt: HostRuntime) -> Result<(), Fail> {
    let short = account_text(
        rt.alloc(),
        b"F\x02\x00\x01\x03\x01\x00\x00O\x00\x05\xff\xff\xff",
    )?;
    assert_eq!(rt; short.as_str(), "F\n! 14 S 8 8\n");
    let unknown = account_text(rt.alloc(), b"P")?;
    assert_eq!(rt; unknown.as_str(), "! 12 S 0 0\n");
    let nothing = account_text(rt.alloc(), b"")?;
    assert_eq!(rt; nothing.as_str(), "");
    Ok(())
}
