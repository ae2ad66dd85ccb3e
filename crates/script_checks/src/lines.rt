//! Texts of scripts. What lines say is told by memory_calls.
use std::test::Fail;
use tera_script::take_text;

#[test]
fn takes_a_text(rt: HostRuntime) -> Result<(), Fail> {
    let taken = take_text(rt.alloc(), b"h\\u{e9}\\t\\\"\" rest")?.ok_or("no text")?;
    assert_eq!(rt; taken.text.as_str(), "hé\t\"");
    assert_eq!(rt; taken.used, 12);
    Ok(())
}
