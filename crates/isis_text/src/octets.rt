//! Formatting of octets as text.
use std::fmt::Write;
use wire_base::M;

/// Appends octets as hexadecimal digits.
pub fn show_hex(text: &mut String, octets: &[u8]) -> M<()> {
    for octet in octets {
        write!(text, "{octet:02x}")?;
    }
    Ok(())
}

/// Appends an area address in the notation `49.0001`: one octet, and then dot-separated groups of two.
pub fn show_area(text: &mut String, area: &[u8]) -> M<()> {
    for (place, octet) in area.iter().enumerate() {
        if place % 2 == 1 {
            text.push('.')?;
        }
        write!(text, "{octet:02x}")?;
    }
    Ok(())
}

/// Appends a name: ASCII unchanged, and any other octet, and a backslash, as `\x5c`.
pub fn show_name(text: &mut String, name: &[u8]) -> M<()> {
    for octet in name {
        if (octet.is_ascii_graphic() || *octet == b' ') && *octet != b'\\' {
            text.push(char::from(*octet))?;
        } else {
            write!(text, "\\x{octet:02x}")?;
        }
    }
    Ok(())
}

/// Appends the line of a broken rule: what the octets should be, and the rule's number and name.
pub fn show_refused(text: &mut String, indent: &str, what: &str, number: u8, name: &[u8]) -> M<()> {
    let name = std::str::from_utf8(name).unwrap_or("?");
    writeln!(text, "{indent}refused {what} {number} {name}")?;
    Ok(())
}
