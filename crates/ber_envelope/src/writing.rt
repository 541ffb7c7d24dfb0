ghost use Rattle.std.specs.Prelude.{◌≡◌, ◌+◌, ◌^◌, ◌<◌, ◌≤◌, ◌++◌, length, vec_len, vec_capacity, IsOk, OnOk, OnErr};
ghost use Rattle.ldap_spec.specs.Elements.{shortest_octets_within, shortest_length, shortest_integer, written};
ghost use Rattle.ldap_spec.specs.Messages.{canonical};

use crate::integers::integer_size;
use lload_names::NoMemory;

/// Appends the canonical spelling of a message: shortest lengths, the shortest integer (RFC 4511, section 5.1). For
/// want of memory `out` has the bytes that it had; none is wanting where the spelling fits the room.
pub fn write_envelope(id: u32, rest: &[u8], out: &mut Vec<u8>) -> Result<(), NoMemory>
    requires id { id < 2 ^ 31 }
    requires rest { length rest.now < 2 ^ 30 }
    ensures ok { OnOk result (out.new.items ≡ out.old.items ++ canonical (record { id = id; rest = rest.now })) }
    ensures err { OnErr result (out.new.items ≡ out.old.items) }
    ensures fits { vec_len out.old + length (canonical (record { id = id; rest = rest.now })) ≤ vec_capacity out.old → IsOk result }
{
    let id_size = integer_size(id);
    let contents = 2 + id_size + rest.len();
    // With the room for all of it nothing below takes memory.
    out.reserve(1 + size_of_length(contents as u32) + contents)?;
    out.push_reserved(0x30);
    push_length(out, contents as u32);
    out.push_reserved(0x02);
    out.push_reserved(id_size as u8);
    push_integer(out, id);
    out.extend_from_slice(rest)?;
    Ok(())
}

/// Appends an element with the shortest length (RFC 4511, section 5.1). For want of memory `out` has the bytes that it
/// had; none is wanting where the element fits the room.
pub fn write_element(tag: u8, contents: &[u8], out: &mut Vec<u8>) -> Result<(), NoMemory>
    requires { length contents.now < 2 ^ 32 }
    ensures ok { OnOk result (out.new.items ≡ out.old.items ++ written tag contents.now) }
    ensures err { OnErr result (out.new.items ≡ out.old.items) }
    ensures fits { vec_len out.old + length (written tag contents.now) ≤ vec_capacity out.old → IsOk result }
{
    out.reserve(1 + size_of_length(contents.len() as u32) + contents.len())?;
    out.push_reserved(tag);
    push_length(out, contents.len() as u32);
    out.extend_from_slice(contents)?;
    Ok(())
}

/// Appends an element whose contents are the shortest integer. For want of memory `out` has the bytes that it had; none
/// is wanting where the element fits the room.
pub fn write_integer(tag: u8, number: u32, out: &mut Vec<u8>) -> Result<(), NoMemory>
    requires { number < 2 ^ 31 }
    ensures ok { OnOk result (out.new.items ≡ out.old.items ++ written tag (shortest_integer number)) }
    ensures err { OnErr result (out.new.items ≡ out.old.items) }
    ensures fits { vec_len out.old + length (written tag (shortest_integer number)) ≤ vec_capacity out.old → IsOk result }
{
    let size = integer_size(number);
    out.reserve(2 + size)?;
    out.push_reserved(tag);
    out.push_reserved(size as u8);
    push_integer(out, number);
    Ok(())
}

/// How many octets the shortest length has.
fn size_of_length(value: u32) -> usize
    ensures { result ≡ length (shortest_length value) }
{
    match value {
        0..=0x7F => 1,
        _ => 1 + usize::from(octet_count(value)),
    }
}

/// Appends the shortest length.
fn push_length(out: &mut Vec<u8>, value: u32)
    requires { vec_len out.old + length (shortest_length value) ≤ vec_capacity out.old }
    ensures items { out.new.items ≡ out.old.items ++ shortest_length value }
    ensures len { vec_len out.new ≡ vec_len out.old + length (shortest_length value) }
    ensures capacity { vec_capacity out.new ≡ vec_capacity out.old }
{
    if value < 0x80 {
        out.push_reserved(value as u8);
    } else {
        out.push_reserved(0x80 + octet_count(value));
        push_octets(out, value);
    }
}

/// Appends the shortest integer.
fn push_integer(out: &mut Vec<u8>, number: u32)
    requires below { number < 2 ^ 31 }
    requires room { vec_len out.old + length (shortest_integer number) ≤ vec_capacity out.old }
    ensures items { out.new.items ≡ out.old.items ++ shortest_integer number }
    ensures len { vec_len out.new ≡ vec_len out.old + length (shortest_integer number) }
    ensures capacity { vec_capacity out.new ≡ vec_capacity out.old }
{
    // An octet of zero keeps a number positive whose first octet is above 127.
    if usize::from(octet_count(number)) < integer_size(number) {
        out.push_reserved(0);
    }
    push_octets(out, number);
}

/// How many octets a number has.
fn octet_count(number: u32) -> u8
    ensures { result ≡ length (shortest_octets_within 4 number) }
{
    match number {
        0..=0xFF => 1,
        0x100..=0xFFFF => 2,
        0x1_0000..=0xFF_FFFF => 3,
        _ => 4,
    }
}

/// Appends the fewest octets of a number, most significant first.
fn push_octets(out: &mut Vec<u8>, number: u32)
    requires { vec_len out.old + length (shortest_octets_within 4 number) ≤ vec_capacity out.old }
    ensures items { out.new.items ≡ out.old.items ++ shortest_octets_within 4 number }
    ensures len { vec_len out.new ≡ vec_len out.old + length (shortest_octets_within 4 number) }
    ensures capacity { vec_capacity out.new ≡ vec_capacity out.old }
{
    if number > 0xFF {
        push_octets(out, number / 0x100);
    }
    out.push_reserved((number % 0x100) as u8);
}
