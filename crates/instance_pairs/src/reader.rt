//! The instances of an instance file.
ghost use Rattle.std.specs.Prelude.{◌≡◌, ◌≤◌, ◌^◌, ◌<◌, [], Ok, OnOk, IfOk, length};
ghost use Rattle.plain_text.specs.Faults.{in_line, FailsAs};
ghost use Rattle.plain_text.specs.LineFolds.{fold_lines};
ghost use Rattle.plain_text.specs.Lines;
ghost use Rattle.instance_pairs.specs.Faults.{fault_of};
ghost use Rattle.instance_pairs.specs.Files.{with_instance, with_line, instances_read};
ghost use Rattle.instance_pairs.specs.Limits.{max_instances};

use crate::faults::{InstanceFault, InstanceWhat};
use crate::instances::{Instance, instance_of};
use crate::limits::MAX_INSTANCES;
use plain_text::{MAX_BYTES, numbered_lines};
use std::alloc::Global;
use std::str;

/// Takes the instance of a line, where there is one. Fails where it is one too many.
fn add(
    instances: &mut Vec<Instance>,
    line: u32,
    stated: Option<Instance>,
) -> Result<(), InstanceFault>
    ensures value { OnOk result (with_instance instances.old.items stated ≡ Ok instances.new.items) }
    ensures fault { FailsAs fault_of result (in_line line (with_instance instances.old.items stated)) }
{
    match stated {
        None => Ok(()),
        Some(instance) => {
            if instances.len() >= MAX_INSTANCES as usize {
                return Err(InstanceFault::At {
                    line,
                    what: InstanceWhat::TooMany,
                });
            }
            instances.push(instance)?;
            Ok(())
        }
    }
}

/// Takes the instance that a line states, where it states one. Fails where the line is no
/// text, and where the instance is one too many.
fn add_line(
    alloc: Global,
    instances: &mut Vec<Instance>,
    line: u32,
    bytes: &[u8],
) -> Result<(), InstanceFault>
    ensures value { OnOk result (with_line instances.old.items line bytes.now ≡ Ok instances.new.items) }
    ensures fault { let read = with_line instances.old.items line bytes.now in
        FailsAs fault_of result (in_line line read) }
{
    match str::from_utf8(bytes) {
        Ok(text) => {
            let stated = instance_of(alloc, text)?;
            add(instances, line, stated)
        }
        Err(_) => Err(InstanceFault::At {
            line,
            what: InstanceWhat::NotText,
        }),
    }
}

/// The instances of a text's lines. Fails with the first fault of a line.
fn read_lines(alloc: Global, text: &[u8]) -> Result<Vec<Instance>, InstanceFault>
    requires { length text.now < 2 ^ 32 }
    ensures value { IfOk result (λ v. fold_lines with_line [] (Lines.numbered_lines text.now) ≡ Ok v.items) }
    ensures fault { FailsAs fault_of result (fold_lines with_line [] (Lines.numbered_lines text.now)) }
{
    let mut instances = Vec::new(alloc);
    for line in numbered_lines(text) {
        add_line(alloc, &mut instances, line.number, line.bytes)?;
    }
    Ok(instances)
}

/// Reads the instances of an instance file, in order: one or more, and at most
/// [`MAX_INSTANCES`].
///
/// # Errors
/// The first rule that is broken, in its line, or [`InstanceFault::Memory`]. A file of more
/// than [`MAX_BYTES`] is too many bytes in line 0.
#[tactic(auto, unfolding(crate::specs::Files::instances_read))]
pub fn read_instances(alloc: Global, text: &[u8]) -> Result<Vec<Instance>, InstanceFault>
    ensures value { IfOk result (λ v. instances_read text.now ≡ Ok v.items) }
    ensures count { IfOk result (λ v. (1 ≤ length v.items) × (length v.items ≤ max_instances)) }
    ensures fault { FailsAs fault_of result (instances_read text.now) }
{
    if text.len() > MAX_BYTES {
        return Err(InstanceFault::At {
            line: 0,
            what: InstanceWhat::TooMany,
        });
    }
    let instances = read_lines(alloc, text)?;
    if instances.is_empty() {
        return Err(InstanceFault::At {
            line: 0,
            what: InstanceWhat::NoInstances,
        });
    }
    Ok(instances)
}
