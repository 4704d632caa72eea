//! The settings of a configuration, and their text.
ghost use Rattle.std.specs.Prelude.{◌≡◌, ◌≤◌, length, map, IfOk, OnOk};
ghost use Rattle.param_space.specs.Space.{Belongs};
ghost use Rattle.param_space.specs.Settings;
ghost use Rattle.param_space.specs.Settings.{name_and_value, with_setting, settings_text};

use crate::lists::Param;
use crate::marks::Marks;
use objective::Memory;
use plain_text::Text;
use std::alloc::Global;

/// A parameter's name and its value.
#[derive(Clone, Copy)]
pub struct NamedValue<'a> {
    /// The name.
    pub name: &'a Text,
    /// The value.
    pub value: &'a Text,
}

/// Appends `name=value`, after a space where there is a text already, or a part of this
/// where there is no memory left.
fn push_setting(out: &mut Vec<u8>, name: &str, value: &str) -> Result<(), Memory>
    ensures { OnOk result (out.new.items ≡ with_setting out.old.items (name.now, value.now)) }
{
    if !out.is_empty() {
        out.push(b' ')?;
    }
    out.extend_from_slice(name.as_bytes())?;
    out.push(b'=')?;
    out.extend_from_slice(value.as_bytes())?;
    Ok(())
}

/// The names and values of the marked ones of these parameters with these value numbers.
pub fn marked_values<'a>(
    alloc: Global,
    params: &'a [Param],
    values: &[u16],
    active: &Marks,
) -> Result<Vec<NamedValue<'a>>, Memory>
    requires belongs { Belongs params.now values.now }
    requires sizes { length params.now ≤ length active.now }
    ensures { IfOk result (λ v. map name_and_value v.items ≡ Settings.marked_values params.now values.now active.now) }
{
    let mut found = Vec::new(alloc);
    for (i, param) in params.iter().enumerate() {
        if active[i] {
            found.push(NamedValue {
                name: &param.name,
                value: &param.values.as_slice()[usize::from(values[i])],
            })?;
        }
    }
    Ok(found)
}

/// Settings as a text, parted by one space.
pub fn text_of(alloc: Global, settings: &[NamedValue<'_>]) -> Result<Vec<u8>, Memory>
    ensures { IfOk result (λ text. text.items ≡ settings_text (map name_and_value settings.now)) }
{
    let mut out = Vec::new(alloc);
    for setting in settings {
        push_setting(&mut out, setting.name.as_str(), setting.value.as_str())?;
    }
    Ok(out)
}
