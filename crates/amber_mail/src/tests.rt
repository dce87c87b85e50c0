//! What no contract says: that what one end sends comes to the other, at once on one thread and in
//! time on two, and that two threads meet at a gate. Tests all of the crate.

use crate::{
    Control, Gate, Mail, MeetGate, Note, OpenGate, Plan, PlannedMail, SilentMail, mail_rings,
};
use std::test::Fail;
use std::thread;

#[test]
fn a_control_comes_once(rt: HostRuntime) -> Result<(), Fail> {
    let (mut post, mut mail) = mail_rings(rt.alloc())?;
    assert!(rt; post.push(Control::Pause).is_ok());
    assert!(rt; mail.look() == Some(Control::Pause));
    assert!(rt; mail.look() == None);
    Ok(())
}

#[test]
fn a_control_waits_where_looks_are_counted_anew(rt: HostRuntime) -> Result<(), Fail> {
    let (mut post, mut mail) = mail_rings(rt.alloc())?;
    assert!(rt; mail.look() == None);
    assert!(rt; post.push(Control::Claim).is_ok());
    mail.count_looks_anew();
    assert!(rt; mail.look() == Some(Control::Claim));
    Ok(())
}

#[test]
fn a_note_comes_once(rt: HostRuntime) -> Result<(), Fail> {
    let (mut post, mut mail) = mail_rings(rt.alloc())?;
    mail.note(Note::Held);
    assert!(rt; post.hear() == Some(Note::Held));
    assert!(rt; post.hear() == None);
    Ok(())
}

#[test]
fn the_control_after_64_is_handed_back(rt: HostRuntime) -> Result<(), Fail> {
    let (mut post, mail) = mail_rings(rt.alloc())?;
    for _ in 0..64 {
        assert!(rt; post.push(Control::Claim).is_ok());
    }
    assert!(rt; post.push(Control::Return) == Err(Control::Return));
    let _mail = mail;
    Ok(())
}

#[test]
fn a_plan_is_answered_in_order(rt: HostRuntime) -> Result<(), Fail> {
    let mut answers = Vec::new(rt.alloc());
    answers.push(None)?;
    answers.push(Some(Control::Pause))?;
    let mut mail = PlannedMail::new(Plan::new(answers));
    assert!(rt; mail.look() == None);
    assert!(rt; mail.look() == Some(Control::Pause));
    assert!(rt; mail.look() == None);
    Ok(())
}

#[test]
fn a_silent_mail_says_nothing(rt: HostRuntime) -> Result<(), Fail> {
    let mut mail = SilentMail::new();
    mail.note(Note::Finished);
    assert!(rt; mail.look() == None);
    Ok(())
}

#[test]
fn one_alone_passes_both_gates_and_meets_nobody(rt: HostRuntime) -> Result<(), Fail> {
    OpenGate.pass(0, 0);
    let gate = MeetGate::new(0, 1, 10);
    gate.pass(0, 0);
    gate.pass(0, 1);
    gate.pass(7, 0);
    assert!(rt; !gate.met());
    Ok(())
}

#[test]
fn two_threads_meet_at_a_gate(rt: HostRuntime) -> Result<(), Fail> {
    let gate = MeetGate::new(3, 5, 1_000_000_000);
    thread::join(&rt, || gate.pass(3, 0), || gate.pass(5, 0));
    assert!(rt; gate.met());
    Ok(())
}

#[test]
fn either_end_may_be_held_by_another_thread(rt: HostRuntime) -> Result<(), Fail> {
    let (mut post, mut mail) = mail_rings(rt.alloc())?;
    let (pushed, ()) = thread::join_mut(
        &rt,
        &mut || post.push(Control::Return).is_ok(),
        &mut || mail.note(Note::Emitted(8)),
    );
    let (found, heard) = thread::join_mut(&rt, &mut || mail.look(), &mut || post.hear());
    assert!(rt; pushed && found == Some(Control::Return));
    assert!(rt; heard == Some(Note::Emitted(8)));
    Ok(())
}
