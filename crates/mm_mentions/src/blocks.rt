//! What is mentioned by the ends of blocks, by blocks and by bodies.
ghost use Rattle.std.specs.List.{flat_map};
ghost use Rattle.std.specs.Prelude.{◌≡◌, ◌++◌, OnOk};
ghost use Rattle.mm_mentions.specs.BodyMentions.{block_mentions, body_mentions, call_mentions, called_mentions, end_mentions, switch_mentions};
ghost use Rattle.mm_mentions.specs.Seen.{seen};

use crate::callees::mention_callee;
use crate::frame::{Frame, frame_of, mention_arms, mention_label};
use crate::mention::Mention;
use crate::operands::{mention_operand, mention_operands, mention_place, mention_statements};
use crate::scope::Scope;
use crate::types::mention_types;
use mm_ast::{Block, Body, Call, Called, End, Switch};
use mm_terms::NoMemory;
use std::alloc::Global;

/// Adds the operand and the labels of a switch.
#[tactic(auto, unfolding(crate::specs::BodyMentions::switch_mentions))]
fn mention_switch(
    alloc: Global,
    scope: &Scope<'_>,
    frame: Frame,
    switch: &Switch,
    out: &mut Vec<Mention>,
) -> Result<(), NoMemory>
    ensures { OnOk result (out.new.items ≡ out.old.items ++ switch_mentions (seen scope.now) frame switch.now) }
{
    mention_operand(alloc, scope, frame, &switch.operand, out)?;
    mention_arms(frame, switch.arms.as_slice(), out)?;
    mention_label(frame, switch.otherwise, out)
}

/// Adds what is called with so many operands.
#[tactic(auto, unfolding(crate::specs::BodyMentions::called_mentions))]
fn mention_called(
    alloc: Global,
    scope: &Scope<'_>,
    frame: Frame,
    called: &Called,
    operands: usize,
    out: &mut Vec<Mention>,
) -> Result<(), NoMemory>
    ensures { OnOk result (out.new.items ≡ out.old.items ++ called_mentions (seen scope.now) frame called.now operands) }
{
    match called {
        Called::Callee(callee) => mention_callee(alloc, scope, callee, Some(operands), out),
        Called::Pointer(operand) => mention_operand(alloc, scope, frame, operand, out),
    }
}

/// Adds where the result of a call goes, what is called, the operands, and the label behind it.
#[tactic(auto, unfolding(crate::specs::BodyMentions::call_mentions))]
fn mention_call(
    alloc: Global,
    scope: &Scope<'_>,
    frame: Frame,
    call: &Call,
    out: &mut Vec<Mention>,
) -> Result<(), NoMemory>
    ensures { OnOk result (out.new.items ≡ out.old.items ++ call_mentions (seen scope.now) frame call.now) }
{
    let operands = call.operands.as_slice();
    mention_place(alloc, frame, &call.place, out)?;
    mention_called(alloc, scope, frame, &call.called, operands.len(), out)?;
    mention_operands(alloc, scope, frame, operands, out)?;
    mention_label(frame, call.target, out)
}

/// Adds the end of a block.
#[tactic(auto, unfolding(crate::specs::BodyMentions::end_mentions))]
fn mention_end(
    alloc: Global,
    scope: &Scope<'_>,
    frame: Frame,
    end: &End,
    out: &mut Vec<Mention>,
) -> Result<(), NoMemory>
    ensures { OnOk result (out.new.items ≡ out.old.items ++ end_mentions (seen scope.now) frame end.now) }
{
    match end {
        End::Return | End::Unreachable => Ok(()),
        End::Goto(label) => mention_label(frame, *label, out),
        End::Switch(switch) => mention_switch(alloc, scope, frame, switch.get(), out),
        End::Call(call) => mention_call(alloc, scope, frame, call.get(), out),
        End::Drop(place, label) => {
            mention_place(alloc, frame, place, out)?;
            mention_label(frame, *label, out)
        }
    }
}

/// Adds blocks.
#[tactic(auto, unfolding(crate::specs::BodyMentions::block_mentions))]
fn mention_blocks(
    alloc: Global,
    scope: &Scope<'_>,
    frame: Frame,
    blocks: &[Block],
    out: &mut Vec<Mention>,
) -> Result<(), NoMemory>
    ensures { OnOk result (out.new.items ≡ out.old.items ++ flat_map (block_mentions (seen scope.now) frame) blocks.now) }
{
    for block in blocks {
        mention_statements(alloc, scope, frame, block.statements.as_slice(), out)?;
        mention_end(alloc, scope, frame, &block.end, out)?;
    }
    Ok(())
}

/// Adds the types of the `let` locals, and the blocks, of a body with so many parameters.
#[tactic(auto, unfolding(crate::specs::BodyMentions::body_mentions))]
pub fn mention_body(
    alloc: Global,
    scope: &Scope<'_>,
    params: usize,
    body: &Body,
    out: &mut Vec<Mention>,
) -> Result<(), NoMemory>
    ensures { OnOk result (out.new.items ≡ out.old.items ++ body_mentions (seen scope.now) params body.now) }
{
    mention_types(alloc, scope, body.lets.as_slice(), out)?;
    let frame = frame_of(params, body);
    mention_blocks(alloc, scope, frame, body.blocks.as_slice(), out)
}
