//! The locals and the labels of a body.
ghost use Rattle.std.specs.Prelude.{◌≡◌, [], ◌∷◌, ◌++◌, map, OnOk};
ghost use Rattle.mm_mentions.specs.Frames.{frame_of, label_mention, local_mention};

use crate::mention::{Mention, What};
use crate::one_mention::mention;
use mm_ast::{Arm, Body, Label, Local};
use mm_terms::NoMemory;

/// How many locals and blocks there are.
#[derive(Clone, Copy)]
pub struct Frame {
    pub params: usize,
    pub lets: usize,
    pub blocks: usize,
}

/// The locals and blocks of a body with so many parameters.
pub fn frame_of(params: usize, body: &Body) -> Frame
    ensures { result ≡ frame_of params body.now }
{
    Frame {
        params,
        lets: body.lets.len(),
        blocks: body.blocks.len(),
    }
}

/// Adds a local. The locals are `_0`, the result, and one for each parameter and each `let`.
pub fn mention_local(frame: Frame, local: Local, out: &mut Vec<Mention>) -> Result<(), NoMemory>
    ensures { OnOk result (out.new.items ≡ out.old.items ++ local_mention frame local ∷ []) }
{
    let behind_params = (local.number as usize).saturating_sub(frame.params);
    mention(local.line, What::Scoped(behind_params <= frame.lets), out)
}

/// Adds a label.
pub fn mention_label(frame: Frame, label: Label, out: &mut Vec<Mention>) -> Result<(), NoMemory>
    ensures { OnOk result (out.new.items ≡ out.old.items ++ label_mention frame label ∷ []) }
{
    let is = (label.number as usize) < frame.blocks;
    mention(label.line, What::Scoped(is), out)
}

/// Adds the labels of the arms of a switch.
pub fn mention_arms(frame: Frame, arms: &[Arm], out: &mut Vec<Mention>) -> Result<(), NoMemory>
    ensures { OnOk result (out.new.items ≡ out.old.items ++ map (λ arm. label_mention frame arm.label) arms.now) }
{
    for arm in arms {
        mention_label(frame, arm.label, out)?;
    }
    Ok(())
}
