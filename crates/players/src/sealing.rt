//! What an actor posts, sealed.
ghost use Rattle.std.specs.Prelude.{◌≡◌, ◌++◌, ◌∷◌, [], map, slice_get, IfOk, IfSome, OnOk, OnErr};
ghost use Rattle.list_facts.specs.Lists.{IsPrefix};
ghost use Rattle.journal.specs.declared.journal.Actor.TheVariants as actor;
ghost use Rattle.vr_log.specs.Letters as vr;
ghost use Rattle.vr_log.specs.Members.{others_below};
ghost use Rattle.group_controller.specs.Mails.{letters_mailed, mailed};
ghost use Rattle.group_controller.specs.State.{to_members};
ghost use Rattle.run_spec.specs.Legal.{AreTyped};
ghost use Rattle.run_spec.specs.Messages.{FitsMessage};
ghost use Rattle.run_spec.specs.States.{controller_message, sealed_letters, switch_message};
ghost use Rattle.run_spec.specs.declared.messages.Message.TheVariants as messages;
ghost use Rattle.players.specs.Mails.{copies};

use crate::body::Body;
use crate::fitting::spoken_fits;
use group_controller::Mail;
use journal::{Actor, Letter, Mailbag};
use of_bytes::u32_fits;
use of_switch::SwitchSays;
use std::alloc::AllocError;
use vr_codec::vr_fits;
use vr_log::{Mail as MemberMail, Receivers, VrMessage};

/// Each number of what a switch says fits its field.
fn says_fits(says: &SwitchSays)
    ensures { FitsMessage (switch_message says.now) }
{
    match says {
        SwitchSays::Of { xid, message } => {
            u32_fits(*xid);
            spoken_fits(message);
        }
        SwitchSays::Frame { port, bytes } => {
            u32_fits(*port);
            let _ = bytes;
        }
    }
}

/// Each number of the letters of a switch fits its field. This call does nothing when it runs.
pub fn letters_fit(letters: &[Letter<SwitchSays>])
    ensures { AreTyped switch_message letters.now }
{
    for letter in letters {
        says_fits(&letter.body);
    }
}

/// Each number of a mail to members fits its field.
fn told_fits(mail: &MemberMail)
    ensures { AreTyped controller_message (to_members (vr.mail_letters mail.now)) }
{
    vr_fits(&mail.message);
}

fn members_fit(mails: &[MemberMail])
    ensures { AreTyped controller_message (to_members (vr.letters_in mails.now)) }
{
    for mail in mails {
        told_fits(mail);
    }
}

/// Each number of a mail fits its field.
fn mail_fits(mail: &Mail)
    ensures { AreTyped controller_message (letters_mailed mail.now) }
{
    match mail {
        Mail::Switch { xid, message, .. } => {
            u32_fits(*xid);
            spoken_fits(message);
        }
        Mail::Members(letters) => members_fit(letters.as_slice()),
    }
}

/// Each number of the mails of a controller fits its field. This call does nothing when it runs.
pub fn mails_fit(mails: &[Mail])
    ensures { AreTyped controller_message (mailed mails.now) }
{
    for mail in mails {
        mail_fits(mail);
    }
}

/// Adds a letter of a switch.
#[inline(always)]
fn seal_letter<B: Body>(bag: &mut Mailbag<B>, letter: &Letter<SwitchSays>) -> Result<(), AllocError>
    ensures ok { OnOk result (bag.new ≡ bag.old ++ sealed_letters switch_message B.sealing (letter.now ∷ [])) }
    ensures err { OnErr result (bag.new ≡ bag.old) }
{
    match &letter.body {
        SwitchSays::Of { xid, message } => B::seal_spoken(bag, letter.to, *xid, message),
        SwitchSays::Frame { port, bytes } => B::seal_frame(bag, letter.to, *port, bytes),
    }
}

/// Adds the letters of a switch.
pub fn seal_letters<B: Body>(
    bag: &mut Mailbag<B>,
    letters: &[Letter<SwitchSays>],
) -> Result<(), AllocError>
    ensures ok { OnOk result (bag.new ≡ bag.old ++ sealed_letters switch_message B.sealing letters.now) }
    ensures err { OnErr result (IsPrefix bag.old bag.new) }
{
    for letter in letters {
        seal_letter(bag, letter)?;
    }
    Ok(())
}

/// Adds a letter that tells a controller what is told to each of several. The first of them is behind so many letters: from it
/// the others have their body.
fn seal_told<B: Body>(
    bag: &mut Mailbag<B>,
    first: usize,
    to: Actor,
    message: &VrMessage,
) -> Result<(), AllocError>
    requires { IfSome (slice_get bag.old first) (λ letter. letter.body ≡ B.sealing.sealed (messages.Vr message.now)) }
    ensures ok { OnOk result (bag.new ≡ bag.old ++ record { to = to; body = B.sealing.sealed (messages.Vr message.now) } ∷ []) }
    ensures err { OnErr result (bag.new ≡ bag.old) }
{
    if first < bag.len() {
        bag.repeat(to, first)
    } else {
        B::seal_vr(bag, to, message)
    }
}

/// Adds a letter to each other controller of a group. What it says is written once.
fn seal_each<B: Body>(
    bag: &mut Mailbag<B>,
    me: u8,
    controllers: u8,
    message: &VrMessage,
) -> Result<(), AllocError>
    ensures ok { OnOk result (bag.new ≡ bag.old ++ copies (B.sealing.sealed (messages.Vr message.now)) (others_below me controllers)) }
    ensures err { OnErr result (IsPrefix bag.old bag.new) }
{
    let first = bag.len();
    for to in 0..controllers {
        if to != me {
            seal_told(bag, first, Actor::Controller(to), message)?;
        }
    }
    Ok(())
}

/// Adds the letters of a mail to members.
#[inline(always)]
fn seal_member_mail<B: Body>(bag: &mut Mailbag<B>, mail: &MemberMail) -> Result<(), AllocError>
    ensures ok { OnOk result (bag.new ≡ bag.old ++ sealed_letters controller_message B.sealing (to_members (vr.mail_letters mail.now))) }
    ensures err { OnErr result (IsPrefix bag.old bag.new) }
{
    match mail.to {
        Receivers::One(to) => B::seal_vr(bag, Actor::Controller(to), &mail.message),
        Receivers::Others { me, controllers } => seal_each(bag, me, controllers, &mail.message),
    }
}

/// Adds the letters of a member.
fn seal_members<B: Body>(bag: &mut Mailbag<B>, mails: &[MemberMail]) -> Result<(), AllocError>
    ensures ok { OnOk result (bag.new ≡ bag.old ++ sealed_letters controller_message B.sealing (to_members (vr.letters_in mails.now))) }
    ensures err { OnErr result (IsPrefix bag.old bag.new) }
{
    for mail in mails {
        seal_member_mail(bag, mail)?;
    }
    Ok(())
}

/// Adds the letters of a mail.
#[inline(always)]
fn seal_mail<B: Body>(bag: &mut Mailbag<B>, mail: &Mail) -> Result<(), AllocError>
    ensures ok { OnOk result (bag.new ≡ bag.old ++ sealed_letters controller_message B.sealing (letters_mailed mail.now)) }
    ensures err { OnErr result (IsPrefix bag.old bag.new) }
{
    match mail {
        Mail::Switch {
            switch,
            xid,
            message,
        } => B::seal_spoken(bag, Actor::Switch(*switch), *xid, message),
        Mail::Members(told) => seal_members(bag, told.as_slice()),
    }
}

/// Adds the letters of a controller's mails: what several controllers are told is written once.
pub fn seal_mails<B: Body>(bag: &mut Mailbag<B>, mails: &[Mail]) -> Result<(), AllocError>
    ensures ok { OnOk result (bag.new ≡ bag.old ++ sealed_letters controller_message B.sealing (mailed mails.now)) }
    ensures err { OnErr result (IsPrefix bag.old bag.new) }
{
    for mail in mails {
        seal_mail(bag, mail)?;
    }
    Ok(())
}
