// What a step of a strand leads to, and what becomes of the forks that it ends.
ghost use Rattle.std.specs.Prelude.{◌≡◌, ◌<◌, ◌+◌, ◌-◌, ◌^◌, ◌∷◌, [], ℕ, List, IfOk, Result, Some, drop, option_map, true};
ghost use Rattle.swf_frames.specs.Tree.{Branch, find};
ghost use Rattle.swf_meaning.specs.Fork.{competes, outputs, put};
ghost use Rattle.swf_meaning.specs.Line.{Line};
ghost use Rattle.swf_meaning.specs.Strands.{can_go};
ghost use Rattle.swf_rules.specs.Settles.{MakesSome, ending};
ghost use Rattle.swf_scene.specs.Halts.{Makes};
ghost use Rattle.swf_stack.specs.Stands.{frames_of};
ghost use Rattle.swf_stack.specs.Stack.{seen_in, top_node};
ghost use Rattle.swf_scene.specs.Setting.{line_of, site_of};
ghost use Rattle.swf_stack.specs.declared.made.Stand.{Stand as TheStand};
ghost use Rattle.swf_tasks.specs.Installed.{IsRuled, IsSeen, IsStep, behind, outer, own_node};
ghost use Rattle.swf_tasks.specs.Stepped.{IsChange, IsChangeOf, IsForkOf, ended_at, ended_in, has_ended, listed, output_of_top, output_on};
ghost use Rattle.swf_strands.specs.Strands.{IsHeld, node_of, nodes_of};

use crate::enter::enter;
use crate::hear::listened;
use crate::prepared::{Prepared, Strands};
use std::alloc::{AllocError, Global};
use swf_activities::answered;
use swf_chain::Chain;
use swf_frames::{Forest, StrandId};
use swf_rule::Rule;
use swf_rules::{failed, moved_on, woken};
use swf_scene::{Halt, Scene};
use swf_stack::{Frame, Made, Running, Stand, Top, keep};
use swf_strands::{child_of, named, stand_of};
use swf_text::Strand;
use swf_value::Json;

/// The step of a strand, told from the one that so many of its branch numbers lead to.
pub fn step_of<'s>(
    alloc: Global,
    forest: &'s Forest<Stand>,
    above: StrandId,
    strand: &Strand,
    depth: usize,
    scene: Scene<'s>,
) -> Result<Prepared, AllocError>
    requires held { IsHeld forest.now above }
    requires can { (b : Branch TheStand) → find forest.now.strands above ≡ Some b → can_go scene.site.now (drop depth strand.now) (node_of b) ≡ true }
    ensures { IfOk result (λ p. (b : Branch TheStand) → find forest.now.strands above ≡ Some b → IsChange (site_of scene.entry) (line_of scene.entry) strand.now depth (drop depth strand.now) (node_of b) p) }
{
    let stand = stand_of(forest, above);
    let numbers = strand.as_slice();
    if depth >= numbers.len() {
        return own_step(alloc, scene, stand, strand, depth);
    }
    let number = numbers[depth] as usize;
    let Some(branch) = child_of(forest, above, number) else {
        unreachable!();
    };
    let scene = scene.inside(alloc, &stand.around)?;
    let prepared = step_of(alloc, forest, branch, strand, depth + 1, scene.copy(alloc)?)?;
    settle(alloc, forest, above, depth, number, scene, prepared)
}

// The step of a branch, with what becomes of its `fork`. A branch leaves the context as it was.
fn settle<'s>(
    alloc: Global,
    forest: &'s Forest<Stand>,
    above: StrandId,
    depth: usize,
    number: usize,
    scene: Scene<'s>,
    mut prepared: Prepared,
) -> Result<Prepared, AllocError>
    requires held { IsHeld forest.now above }
    requires fork { (b : Branch TheStand) → find forest.now.strands above ≡ Some b → IsForkOf b number }
    requires inner { depth < 2 ^ 64 - 1 }
    ensures { IfOk result (λ p. (b : Branch TheStand) (l : Line) (way inner : List ℕ) → find forest.now.strands above ≡ Some b → line_of scene.entry ≡ seen_in l (frames_of b.frames) → IsChangeOf (site_of scene.entry) (line_of scene.entry) way (depth + 1) inner b number prepared → IsChange (site_of scene.entry) l way depth (number ∷ inner) (node_of b) p) }
{
    prepared.context = None;
    let Some(ended) = ended(&prepared.strands, depth + 1) else {
        return Ok(prepared);
    };
    let Stand { around, top } = stand_of(forest, above);
    let Top::Forked(running) = top.get() else {
        unreachable!();
    };
    let outputs = outputs_of(alloc, forest, above, number, ended)?;
    let given = settled(alloc, &scene, running, ended, outputs);
    let made = match given {
        Ok(None) => return Ok(prepared),
        Ok(Some(made)) => made,
        Err(halt) => swf_rule::step_of(alloc, Err(halt))?,
    };
    let kept = keep(alloc, around, made.context)?;
    let stand = Stand::inside(alloc, kept.around, made.frame, made.top)?;
    prepared.strands = Strands::One { depth, stand };
    prepared.context = kept.context;
    Ok(prepared)
}

// What a `fork` comes to of which a branch has just ended so, and all branches have these outputs.
fn settled<'s>(
    alloc: Global,
    scene: &'s Scene<'s>,
    running: &'s Running,
    ended: &Top,
    all: Option<Json>,
) -> Result<Option<Made>, Halt>
    ensures { MakesSome (line_of scene.entry.now) (ending (line_of scene.entry.now) running.now (competes running.now.task) all ended.now) result }
{
    let rule = Rule {
        alloc,
        scene,
        running,
        vars: None,
    };
    swf_rules::settled(&rule, running.task().competes(), ended, all)
}

// What the strand ended in that so many branch numbers lead to, where it is the one that is put anew and it ended.
fn ended(strands: &Strands, depth: usize) -> Option<&Top>
    ensures { option_map (λ t. t.now) result ≡ ended_at depth strands.now }
{
    match strands {
        Strands::One { depth: at, stand } if *at == depth => ended_in(stand),
        _ => None,
    }
}

// What a strand ended in, where it did.
fn ended_in(stand: &Stand) -> Option<&Top>
    ensures { option_map (λ t. t.now) result ≡ ended_in stand.now.around stand.now.top }
{
    if stand.around.is_empty() && has_ended(stand.top.get()) {
        Some(stand.top.get())
    } else {
        None
    }
}

fn has_ended(top: &Top) -> bool
    ensures { result ≡ has_ended top.now }
{
    matches!(top, Top::Done { .. } | Top::Fault(_))
}

// The output of what ended.
fn output_of(top: &Top) -> Option<&Json>
    ensures { option_map (λ w. w.now) result ≡ output_of_top top.now }
{
    match top {
        Top::Done { output, .. } => Some(output),
        _ => None,
    }
}

// The output of what ended on a strand, where nothing stands around it.
fn output_on(stand: &Stand) -> Option<&Json>
    ensures { option_map (λ w. w.now) result ≡ output_on stand.now.around stand.now.top }
{
    if stand.around.is_empty() {
        output_of(stand.top.get())
    } else {
        None
    }
}

// The outputs of all branches of a strand, of which that one has just ended, once all are done.
fn outputs_of(
    alloc: Global,
    forest: &Forest<Stand>,
    strand: StrandId,
    number: usize,
    ended: &Top,
) -> Result<Option<Json>, AllocError>
    requires held { IsHeld forest.now strand }
    ensures { IfOk result (λ o. (b : Branch TheStand) → find forest.now.strands strand ≡ Some b → o ≡ option_map listed (outputs (put (nodes_of b.below) number (top_node ended.now)))) }
{
    let mut outputs = Vec::new(alloc);
    let mut next = 0;
    while let Some(branch) = child_of(forest, strand, next) {
        let output = if next == number {
            output_of(ended)
        } else {
            output_on(stand_of(forest, branch))
        };
        let Some(output) = output else {
            return Ok(None);
        };
        outputs.push(output.copy()?)?;
        next += 1;
    }
    Ok(Some(Json::list(alloc, outputs)?))
}

// What stands innermost on a strand takes its step, to which so many of these branch numbers lead.
fn own_step<'s>(
    alloc: Global,
    scene: Scene<'s>,
    stand: &'s Stand,
    strand: &Strand,
    depth: usize,
) -> Result<Prepared, AllocError>
    requires { can_go scene.site.now [] (own_node stand.now) ≡ true }
    ensures { IfOk result (λ p. IsChange (site_of scene.entry) (line_of scene.entry) strand.now depth [] (own_node stand.now) p) }
{
    let number = scene.setting.number;
    let made = next_of(alloc, scene, stand)?;
    let number = number_after(number, made.used)?;
    let strand = named(alloc, strand.as_slice())?;
    let kept = keep(alloc, outer_of(stand), made.context)?;
    let stand = Stand::inside(alloc, kept.around, made.frame, made.top)?;
    Ok(Prepared {
        strand,
        strands: Strands::One { depth, stand },
        context: kept.context,
        number,
        emitted: made.emitted,
    })
}

// The next number, where so many were used. There is none behind the greatest.
fn number_after(number: u64, used: u64) -> Result<u64, AllocError>
    ensures { IfOk result (λ n. n ≡ number + used) }
{
    number.checked_add(used).ok_or(AllocError)
}

// The tasks that still run around what a step puts anew.
fn outer_of(stand: &Stand) -> &Chain<Frame>
    ensures { result.now ≡ outer stand.now.top stand.now.around }
{
    match stand.around.split_first() {
        Some((_, outer)) if has_ended(stand.top.get()) => outer,
        _ => &stand.around,
    }
}

// What the step makes of what stands innermost.
fn next_of<'s>(alloc: Global, scene: Scene<'s>, stand: &'s Stand) -> Result<Made, AllocError>
    requires { can_go scene.site.now [] (own_node stand.now) ≡ true }
    ensures { IfOk result (λ m. IsStep (site_of scene.entry) (line_of scene.entry) stand.now m) }
{
    let scene = scene.inside(alloc, outer_of(stand))?;
    let given = ruled(alloc, &scene, stand);
    swf_rule::step_of(alloc, given)
}

// What the rule gives that applies to what stands innermost.
fn ruled<'s>(alloc: Global, scene: &'s Scene<'s>, stand: &'s Stand) -> Result<Made, Halt>
    requires { can_go scene.now.site.now [] (own_node stand.now) ≡ true }
    ensures { (l : Line) → IsSeen l (line_of scene.entry.now) stand.now → IsRuled (site_of scene.entry.now) l (line_of scene.entry.now) stand.now result }
{
    match stand.top.get() {
        Top::Fresh { task, raw } => enter(alloc, scene, task, raw),
        Top::Waiting {
            running,
            retries,
            ..
        } => {
            let rule = Rule {
                alloc,
                scene,
                running,
                vars: None,
            };
            woken(&rule, *retries)
        }
        Top::Hearing { running, heard, .. } => {
            let rule = Rule {
                alloc,
                scene,
                running,
                vars: None,
            };
            listened(&rule, heard.as_slice())
        }
        Top::Awaiting {
            running,
            request,
            answer,
            ..
        } => {
            let rule = Rule {
                alloc,
                scene,
                running,
                vars: None,
            };
            let Some(reply) = answer else {
                unreachable!();
            };
            answered(&rule, request.get(), reply)
        }
        Top::Forked(_) => unreachable!(),
        Top::Done { output, flow } => moved_on(alloc, scene, innermost(stand), output, flow),
        Top::Fault(problem) => failed(alloc, scene, innermost(stand), problem),
    }
}

// The task that runs innermost.
fn innermost(stand: &Stand) -> &Frame
    requires { stand.now.around ≡ [] → ⊥ }
    ensures { stand.now.around ≡ result.now ∷ behind stand.now.around }
{
    let Some((frame, _)) = stand.around.split_first() else {
        unreachable!();
    };
    frame
}
