// Says a reply, or why the program stops, and what follows.
ghost use Rattle.std.specs.Prelude.{◌≡◌, ◌⊎◌, IfOk};
ghost use Rattle.swf_protocol.specs.Sayable.{IsSayable};
ghost use Rattle.swf_protocol.specs.Spoken.{spoken, damaged_bytes, full_bytes};
ghost use Rattle.swf_turns.specs.Blame.{IsBlamed};
ghost use Rattle.swf_turns.specs.Steps.{IsStop, Says, follows_end, status_of};

use crate::answer::Answered;
use std::alloc::{AllocError, Global};
use swf_host::{Host, NoWork};
use swf_protocol::{Reply, damaged_line, full_line, reply_bytes};

/// The store failed.
pub const STORE_FAULT: u8 = 3;

/// The host failed.
pub const HOST_FAULT: u8 = 4;

/// The journal is damaged.
pub const DAMAGED: u8 = 5;

/// No memory was found.
pub const NO_MEMORY: u8 = 6;

/// The journal is full.
pub const FULL: u8 = 7;

/// What follows a turn.
pub enum After {
    /// The next turn.
    GoesOn,
    /// The end of the input.
    Ends,
    /// The end of the program, with this status.
    Stops(u8),
}

// The line of a reply.
fn line_of(alloc: Global, reply: Reply) -> Result<Vec<u8>, AllocError>
    requires { IsSayable reply }
    ensures { IfOk result (λ bytes. bytes.items ≡ spoken reply) }
{
    let mut line = reply_bytes(alloc, &reply)?;
    line.push(b'\n')?;
    Ok(line)
}

/// Says the bytes of a reply, behind which the input may end.
pub fn say_line<H: Host<NoWork, NoWork>>(host: &mut H, conn: u64, line: &[u8], ends: bool) -> After
    ensures says { Says H.moment H.left_since H.said H.may_leave H.seen H.taken host.old host.new conn line.now (follows_end ends) result }
    ensures calls { H.calls host.new ≡ H.calls host.old }
    ensures stops { IsStop result }
    ensures blamed { IsBlamed (status_of result) (H.host_faults host.old) (H.host_faults host.new) (H.store_faults host.old) (H.store_faults host.new) }
{
    match host.say(conn, line) {
        Ok(()) => { if ends { After::Ends } else { After::GoesOn } }
        Err(_) => After::Stops(HOST_FAULT),
    }
}

/// Says a reply to the connection that asked.
pub fn say<H: Host<NoWork, NoWork>>(
    alloc: Global,
    host: &mut H,
    conn: u64,
    answered: Answered,
) -> After
    requires { IsSayable answered.reply }
    ensures says { Says H.moment H.left_since H.said H.may_leave H.seen H.taken host.old host.new conn (spoken answered.reply) (follows_end answered.ends) result }
    ensures calls { H.calls host.new ≡ H.calls host.old }
    ensures stops { IsStop result }
    ensures blamed { IsBlamed (status_of result) (H.host_faults host.old) (H.host_faults host.new) (H.store_faults host.old) (H.store_faults host.new) }
{
    let ends = answered.ends;
    let Ok(line) = line_of(alloc, answered.reply) else {
        return After::Stops(NO_MEMORY);
    };
    say_line(host, conn, &line, ends)
}

/// Says to the connection that asked that the journal is full.
pub fn say_full<H: Host<NoWork, NoWork>>(alloc: Global, host: &mut H, conn: u64, size: u64) -> After
    ensures says { Says H.moment H.left_since H.said H.may_leave H.seen H.taken host.old host.new conn (full_bytes size) (After.Stops 7) result }
    ensures calls { H.calls host.new ≡ H.calls host.old }
    ensures stops { IsStop result }
    ensures blamed { IsBlamed (status_of result) (H.host_faults host.old) (H.host_faults host.new) (H.store_faults host.old) (H.store_faults host.new) }
{
    let Ok(line) = full_line(alloc, size) else {
        return After::Stops(NO_MEMORY);
    };
    say_last(host, conn, &line)
}

/// Says bytes behind which the program stops, since the journal is full.
pub fn say_last<H: Host<NoWork, NoWork>>(host: &mut H, conn: u64, line: &[u8]) -> After
    ensures says { Says H.moment H.left_since H.said H.may_leave H.seen H.taken host.old host.new conn line.now (After.Stops 7) result }
    ensures calls { H.calls host.new ≡ H.calls host.old }
    ensures stops { IsStop result }
    ensures blamed { IsBlamed (status_of result) (H.host_faults host.old) (H.host_faults host.new) (H.store_faults host.old) (H.store_faults host.new) }
{
    match host.say(conn, line) {
        Ok(()) => After::Stops(FULL),
        Err(_) => After::Stops(HOST_FAULT),
    }
}

/// Says bytes behind which the program stops, since the journal is damaged, and answers the status.
pub fn say_damaged<H: Host<NoWork, NoWork>>(host: &mut H, conn: u64, line: &[u8]) -> u8
    ensures says { Says H.moment H.left_since H.said H.may_leave H.seen H.taken host.old host.new conn line.now (After.Stops 5) (After.Stops result) }
    ensures calls { H.calls host.new ≡ H.calls host.old }
    ensures taken { H.taken host.new ≡ H.taken host.old }
    ensures blamed { IsBlamed result (H.host_faults host.old) (H.host_faults host.new) (H.store_faults host.old) (H.store_faults host.new) }
    ensures which { (result ≡ 5) ⊎ (result ≡ 6) ⊎ (result ≡ 4) }
{
    match host.say(conn, line) {
        Ok(()) => DAMAGED,
        Err(_) => HOST_FAULT,
    }
}

/// Says to a connection where the journal is damaged, and answers the status.
pub fn say_damage<H: Host<NoWork, NoWork>>(alloc: Global, host: &mut H, conn: u64, at: u64) -> u8
    ensures says { Says H.moment H.left_since H.said H.may_leave H.seen H.taken host.old host.new conn (damaged_bytes at) (After.Stops 5) (After.Stops result) }
    ensures calls { H.calls host.new ≡ H.calls host.old }
    ensures taken { H.taken host.new ≡ H.taken host.old }
    ensures blamed { IsBlamed result (H.host_faults host.old) (H.host_faults host.new) (H.store_faults host.old) (H.store_faults host.new) }
    ensures which { (result ≡ 5) ⊎ (result ≡ 6) ⊎ (result ≡ 4) }
{
    let Ok(line) = damaged_line(alloc, at) else {
        return NO_MEMORY;
    };
    say_damaged(host, conn, &line)
}
