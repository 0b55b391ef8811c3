//! Letters of a controller.
ghost use Rattle.std.specs.Prelude.{◌≡◌, ◌++◌, ◌∷◌, [], map, OnOk};
ghost use Rattle.vr_log.specs.Steps.{later_of};
ghost use Rattle.dispatcher.specs.Few.{values_in};
ghost use Rattle.group_controller.specs.Mails.{letters_mailed, mailed};
ghost use Rattle.group_controller.specs.Settling as settling;
ghost use Rattle.group_controller.specs.State as state;
ghost use Rattle.group_controller.specs.State.{to_members};

use crate::mails::Mail;
use dispatcher::{AckThrough, Few, NumberedOrder};
use of_types::{Extension, MASTER, OfMessage, Spoken};
use std::alloc::AllocError;
use vr_log::{VrLetters, VrOut};

/// A message to a switch. One that is no answer has number 0.
pub(crate) fn to_switch(switch: u8, xid: u32, message: Spoken) -> Mail
    ensures { letters_mailed result ≡ state.to_switch switch xid message ∷ [] }
{
    Mail::Switch {
        switch,
        xid,
        message,
    }
}

/// A switch is asked to take this controller as master.
pub(crate) fn role_letter(view: u32, switch: u8) -> Mail
    ensures { letters_mailed result ≡ settling.role_letter view switch ∷ [] }
{
    let request = OfMessage::RoleRequest {
        role: MASTER,
        generation: u64::from(view),
    };
    to_switch(switch, 0, Spoken::Plain(request))
}

/// A command to its switch, with the view as its generation.
pub(crate) fn command_letter(view: u32, numbered: NumberedOrder) -> Mail
    ensures { letters_mailed result ≡ settling.command_letter view numbered ∷ [] }
{
    let command = Extension::Command {
        life: numbered.life,
        generation: u64::from(view),
        number: numbered.number,
        settled: numbered.settled,
        order: numbered.order,
    };
    to_switch(numbered.switch, 0, Spoken::Ravana(command))
}

/// A switch is told how many events of a life are done with.
pub(crate) fn ack_letter(told: AckThrough) -> Mail
    ensures { letters_mailed result ≡ settling.ack_letter told ∷ [] }
{
    let ack = Extension::EventAck {
        life: told.life,
        through: told.through,
    };
    to_switch(told.switch, 0, Spoken::Ravana(ack))
}

/// A switch is told how many commands of a life are done with.
pub(crate) fn clear_letter(told: AckThrough) -> Mail
    ensures { letters_mailed result ≡ settling.clear_letter told ∷ [] }
{
    let clear = Extension::Clear {
        life: told.life,
        through: told.through,
    };
    to_switch(told.switch, 0, Spoken::Ravana(clear))
}

/// Letters of a member go behind those that are there, and none are left where they stood.
fn add_members(mails: &mut Vec<Mail>, letters: &mut VrLetters) -> Result<(), AllocError>
    ensures { OnOk result (mailed mails.new.items ≡ mailed mails.old.items ++ to_members letters.old) }
{
    if letters.is_empty() {
        return Ok(());
    }
    mails.reserve(1)?;
    mails.push_reserved(Mail::Members(letters.take()));
    Ok(())
}

/// So does all that a step of a member wants to be saved and sent.
#[inline(always)]
pub(crate) fn add_out(
    promise: &mut Option<u32>,
    mails: &mut Vec<Mail>,
    out: &mut VrOut,
) -> Result<(), AllocError>
    ensures promise { promise.new ≡ later_of promise.old out.old.promise }
    ensures letters { OnOk result (mailed mails.new.items ≡ mailed mails.old.items ++ to_members out.old.letters) }
{
    if let Some(view) = out.promise {
        *promise = Some(view);
    }
    add_members(mails, &mut out.letters)
}

/// A mail goes behind those that are there.
pub(crate) fn add(mails: &mut Vec<Mail>, mail: Mail) -> Result<(), AllocError>
    ensures { OnOk result (mailed mails.new.items ≡ mailed mails.old.items ++ letters_mailed mail) }
{
    mails.reserve(1)?;
    mails.push_reserved(mail);
    Ok(())
}

/// So do commands.
pub(crate) fn add_commands(
    mails: &mut Vec<Mail>,
    view: u32,
    commands: Few<NumberedOrder>,
) -> Result<(), AllocError>
    ensures { OnOk result (mailed mails.new.items ≡ mailed mails.old.items ++ map (settling.command_letter view) (values_in commands)) }
{
    match commands {
        Few::Nothing => Ok(()),
        Few::One(numbered) => add(mails, command_letter(view, numbered)),
        Few::Many(commands) => add_each(mails, view, commands),
    }
}

fn add_each(
    mails: &mut Vec<Mail>,
    view: u32,
    commands: Vec<NumberedOrder>,
) -> Result<(), AllocError>
    ensures { OnOk result (mailed mails.new.items ≡ mailed mails.old.items ++ map (settling.command_letter view) commands.items) }
{
    mails.reserve(commands.len())?;
    'more: for numbered in commands {
        mails.push_reserved(command_letter(view, numbered));
    }
    Ok(())
}

/// And what is done with.
pub(crate) fn add_clears(mails: &mut Vec<Mail>, clears: &[AckThrough]) -> Result<(), AllocError>
    ensures { OnOk result (mailed mails.new.items ≡ mailed mails.old.items ++ map settling.clear_letter clears.now) }
{
    mails.reserve(clears.len())?;
    'more: for told in clears {
        mails.push_reserved(clear_letter(*told));
    }
    Ok(())
}
