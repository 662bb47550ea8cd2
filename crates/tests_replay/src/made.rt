//! Entries of domain files that are generated.
use std::fmt::Write;
use wire_base::M;

/// Appends the entry of a router, whose system ID and prefix have its number.
pub fn push_router(out: &mut String, name: &str, number: u16) -> M<()> {
    let [high, low] = number.to_be_bytes();
    writeln!(
        out,
        "[[router]]\nname='{name}'\nsystem='0000.0000.{high:02x}{low:02x}'"
    )?;
    writeln!(out, "prefix='10.0.{high}.{low}'")?;
    Ok(())
}

/// Appends a link with the same metric in both directions.
pub fn push_link(out: &mut String, a: &str, b: &str, metric: u8) -> M<()> {
    writeln!(
        out,
        "[[link]]\na='{a}'\nb='{b}'\nmetric_ab={metric}\nmetric_ba={metric}"
    )?;
    Ok(())
}
