//! Members of the object of a reply.
ghost use Rattle.std.specs.Prelude.{◌++◌, ◌∷◌, [], codes, decimal, map};
ghost use Rattle.hex.specs.Hex.{encode_lower};
ghost use Rattle.json.specs.Token as token;
ghost use Rattle.cap_replies.specs.ReplyJson as spec;
ghost use Rattle.cap_show.specs.Json.{Appends};

use cap_show::write_text_member;
use cap_value::{AllocHandle, Name, OutOfMemory};
use json::Writer;

// Writes a key. At a long literal the writer's own clauses are too large for a search.
pub(crate) fn write_key<A: AllocHandle>(
    writer: &mut Writer<A>,
    name: &str,
) -> Result<(), OutOfMemory>
    ensures { Appends result writer.old writer.new (token.key name.now ∷ []) }
{
    writer.key(name)
}

#[tactic(auto, unfolding(crate::specs::ReplyJson::number_member))]
pub(crate) fn write_number<A: AllocHandle>(
    writer: &mut Writer<A>,
    name: &str,
    number: u64,
) -> Result<(), OutOfMemory>
    ensures { Appends result writer.old writer.new (spec.number_member name.now number) }
{
    writer.key(name)?;
    writer.u64(number)
}

// Writes the number as a member, where there is one.
pub(crate) fn write_optional<A: AllocHandle>(
    writer: &mut Writer<A>,
    name: &str,
    number: Option<u64>,
) -> Result<(), OutOfMemory>
    ensures { Appends result writer.old writer.new (spec.optional_member name.now number) }
{
    match number {
        Some(number) => write_number(writer, name, number),
        None => Ok(()),
    }
}

// Writes which reply it is.
pub(crate) fn write_kind<A: AllocHandle>(
    writer: &mut Writer<A>,
    word: &str,
) -> Result<(), OutOfMemory>
    ensures { Appends result writer.old writer.new (spec.kind word.now) }
{
    write_text_member(writer, "reply", word)
}

// Writes which reply it is, and the version of the tables.
pub(crate) fn write_kind_at<A: AllocHandle>(
    writer: &mut Writer<A>,
    word: &str,
    version: u64,
) -> Result<(), OutOfMemory>
    ensures { Appends result writer.old writer.new (spec.kind_at word.now version) }
{
    write_kind(writer, word)?;
    write_number(writer, "version", version)
}

// Writes the numbers as a member.
#[tactic(auto, unfolding(crate::specs::ReplyJson::numbers_member))]
pub(crate) fn write_numbers<A: AllocHandle>(
    writer: &mut Writer<A>,
    name: &str,
    numbers: &[u64],
) -> Result<(), OutOfMemory>
    ensures { Appends result writer.old writer.new (spec.numbers_member name.now numbers.now) }
{
    writer.key(name)?;
    writer.begin_array()?;
    write_each_number(writer, numbers)?;
    writer.end_array()
}

fn write_each_number<A: AllocHandle>(
    writer: &mut Writer<A>,
    numbers: &[u64],
) -> Result<(), OutOfMemory>
    ensures { Appends result writer.old writer.new
        (map (λ number. token.number (decimal number)) numbers.now) }
{
    for number in numbers {
        writer.u64(*number)?;
    }
    Ok(())
}

// Writes the texts as a member.
#[tactic(auto, unfolding(crate::specs::ReplyJson::texts_member))]
pub(crate) fn write_names<A: AllocHandle>(
    writer: &mut Writer<A>,
    name: &str,
    texts: &[Name<A>],
) -> Result<(), OutOfMemory>
    ensures { Appends result writer.old writer.new (spec.texts_member name.now texts.now) }
{
    writer.key(name)?;
    writer.begin_array()?;
    write_each_name(writer, texts)?;
    writer.end_array()
}

fn write_each_name<A: AllocHandle>(
    writer: &mut Writer<A>,
    texts: &[Name<A>],
) -> Result<(), OutOfMemory>
    ensures { Appends result writer.old writer.new (map (λ text. token.string text) texts.now) }
{
    for text in texts {
        writer.string(text.as_str())?;
    }
    Ok(())
}

#[tactic(auto, unfolding(crate::specs::ReplyJson::flag_member))]
pub(crate) fn write_flag<A: AllocHandle>(
    writer: &mut Writer<A>,
    name: &str,
    flag: bool,
) -> Result<(), OutOfMemory>
    ensures { Appends result writer.old writer.new (spec.flag_member name.now flag) }
{
    writer.key(name)?;
    writer.boolean(flag)
}

// Writes which blob it is, the version of the tables, and its bytes in hex digits.
pub(crate) fn write_blob<A: AllocHandle>(
    alloc: A,
    writer: &mut Writer<A>,
    word: &str,
    version: u64,
    bytes: &[u8],
) -> Result<(), OutOfMemory>
    ensures { Appends result writer.old writer.new (spec.blob_reply word.now version bytes.now) }
{
    let digits = hex::encode(alloc, bytes)?;
    write_kind_at(writer, word, version)?;
    write_text_member(writer, word, digits.as_str())
}
