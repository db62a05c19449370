//! The last field of the line of a file that is checked: the file's name.
ghost use Rattle.std.specs.Prelude.{◌≡◌, ◌++◌, chars, codes, flat_map, false, IfOk, OnOk, Some};
ghost use Rattle.cap_line.specs.Shown.{shown_text};
ghost use Rattle.cap_tool.specs.NameFields.{name_field};
ghost use Rattle.cap_tool.specs.Objects.{escaped_character, path_json};

use crate::objects::escaped;
use cap_line::escape;
use cap_print::Form;
use std::alloc::{AllocError, Global};

/// Adds a text as it stands in a string of JSON.
pub(crate) fn add_escaped(field: &mut Vec<u8>, name: &str) -> Result<(), AllocError>
    ensures { OnOk result (field.new.items ≡ field.old.items ++ flat_map escaped_character (chars name.now)) }
{
    let mut rest = name.chars();
    while let Some(c) = rest.next() {
        field.extend_from_slice(escaped(c).as_slice())?;
    }
    Ok(())
}

// `,"path":"NAME"`
fn path_field(alloc: Global, name: &str) -> Result<Vec<u8>, AllocError>
    ensures { IfOk result (λ field. field.items ≡ path_json (Some name.now)) }
{
    let mut field = Vec::new(alloc);
    field.extend_from_slice(b",\"path\":\"")?;
    add_escaped(&mut field, name)?;
    field.extend_from_slice(b"\"")?;
    Ok(field)
}

// ` name NAME`
fn shown_field(alloc: Global, name: &str) -> Result<Vec<u8>, AllocError>
    ensures { IfOk result (λ field. field.items ≡ codes " name " ++ shown_text false name.now) }
{
    let shown = escape(alloc, name)?;
    let mut field = Vec::new(alloc);
    field.extend_from_slice(b" name ")?;
    field.extend_from_slice(shown.as_bytes())?;
    Ok(field)
}

/// The last field of the line of a file of that name: in JSON its `path`, the name in a string; in text ` name ` and
/// the name as a terminal shows it, if that is asked for, and nothing otherwise.
pub(crate) fn name_field(
    alloc: Global,
    form: Form,
    is_shown: bool,
    name: &str,
) -> Result<Vec<u8>, AllocError>
    ensures { IfOk result (λ field. field.items ≡ name_field form is_shown name.now) }
{
    match form {
        Form::Json(_) => path_field(alloc, name),
        Form::Text(_) => {
            if is_shown {
                shown_field(alloc, name)
            } else {
                Ok(Vec::new(alloc))
            }
        }
    }
}
