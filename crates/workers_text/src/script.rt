//! A script that was read.
ghost use Rattle.std.specs.Prelude.{◌≡◌, [], ◌∷◌, ◌++◌, length, flat_map, OnOk, OnErr};
ghost use Rattle.std.specs.List.{AllByRecursion};
ghost use Rattle.command_lines.specs.Replies.{reply_text};
ghost use Rattle.command_lines.specs.ValidCommands.{IsValidCommand};
ghost use Rattle.workers_text.specs.Entries.{commands_in, in_places, HasSession};
ghost use Rattle.workers_text.specs.inside.Places.{behind, put_in, HasReply, HavePlaces, IsDoable, IsReplyAt};

use crate::entry::Entry;
use command_lines::{Command, LineReply, write_reply};
use dewey_labels::{List, NoMemory};
use std::alloc::Global;
use std::marker::Model;

/// A line that isn't blank: one of a command, the next of all, or one that is no command, with its reply.
#[derive(Debug, Drop)]
enum Place {
    Command,
    Bad(LineReply),
}

/// A script that was read, seen as its lines that aren't blank (`entries`). Its commands may be done, all of them.
#[derive(Debug, Drop)]
pub struct Script {
    commands: List<Command>,
    places: List<Place>,
}

impl Model for Script {
    ghost use Rattle.std.specs.Coded.{codes};
    ghost use Rattle.path_model.specs.contracts.path.XPath as path;
    ghost use Rattle.tree_model.specs.contracts.fragment.Fragment as fragment;
    ghost use Rattle.workers_text.specs.Entries.{Script as Read};
    ghost use Rattle.workers_text.specs.inside.Places.{IsKept, filled};

    ghost Value = { Read };

    ghost coded = { Prim.hlevel (codes, fragment.the_row.coded, path.the_row.coded) };

    ghost view = { λ s. record { entries = filled s.places s.commands } };

    ghost invariant = { λ s. IsKept s.places s.commands };
}

impl Script {
    /// A script of no line. It takes no memory.
    pub(crate) fn new(alloc: Global) -> Script
        ensures { result.entries ≡ [] }
    {
        Script {
            commands: List::new(alloc),
            places: List::new(alloc),
        }
    }

    /// Adds a line.
    pub(crate) fn add(&mut self, entry: Entry) -> Result<(), NoMemory>
        requires { IsDoable entry }
        ensures ok { OnOk result (self.new.entries ≡ self.old.entries ++ entry ∷ []) }
        ensures err { OnErr result (self.new.entries ≡ self.old.entries) }
    {
        match entry {
            Entry::Bad(reply) => self.places.push(Place::Bad(reply)),
            Entry::Asked(command) => push_command(&mut self.commands, &mut self.places, command),
        }
    }

    /// The commands, in the order of their lines.
    pub fn commands(&self) -> &List<Command>
        ensures commands { result.now ≡ commands_in self.now.entries }
        ensures valid { AllByRecursion IsValidCommand result.now }
        ensures sessions { AllByRecursion HasSession result.now }
    {
        &self.commands
    }

    /// Puts the text of the replies of all lines at the end of `out`, each in its line's place, where `replies` are the commands'.
    /// After an error some of it may stand there.
    pub fn write_replies(
        &self,
        alloc: Global,
        replies: &[LineReply],
        out: &mut List<u8>,
    ) -> Result<(), NoMemory>
        requires { length replies.now ≡ length (commands_in self.now.entries) }
        ensures { OnOk result (out.new ≡ out.old ++ flat_map reply_text (in_places self.now.entries replies.now)) }
    {
        write_places(alloc, self.places.as_slice(), replies, out)
    }
}

/// Puts a command behind those that there are, and its place behind the others; or neither, where memory is wanting.
fn push_command(
    commands: &mut List<Command>,
    places: &mut List<Place>,
    command: Command,
) -> Result<(), NoMemory>
    ensures commands { OnOk result (commands.new ≡ commands.old ++ command ∷ []) }
    ensures places { OnOk result (places.new ≡ places.old ++ Place.Command ∷ []) }
    ensures err { OnErr result ((commands.new ≡ commands.old) × (places.new ≡ places.old)) }
{
    let before = commands.len();
    commands.push(command)?;
    match places.push(Place::Command) {
        Ok(()) => Ok(()),
        Err(NoMemory) => {
            commands.truncate(before);
            Err(NoMemory)
        }
    }
}

/// The reply of a place: its own, or the first of these.
fn reply_at<'a>(place: &'a Place, replies: &'a [LineReply]) -> &'a LineReply
    requires { HasReply place.now replies.now }
    ensures { IsReplyAt place.now replies.now result.now }
{
    match (place, replies.first()) {
        (Place::Bad(reply), _) => reply,
        (Place::Command, Some(reply)) => reply,
        (Place::Command, None) => unreachable!(),
    }
}

/// The replies of the places behind.
fn behind<'a>(place: &Place, replies: &'a [LineReply]) -> &'a [LineReply]
    ensures { result.now ≡ behind place.now replies.now }
{
    match (place, replies.split_first()) {
        (Place::Command, Some((_, rest))) => rest,
        _ => replies,
    }
}

/// Puts the text of the replies at the end of `out`, each in its place, where `replies` are the commands'.
fn write_places(
    alloc: Global,
    places: &[Place],
    replies: &[LineReply],
    out: &mut List<u8>,
) -> Result<(), NoMemory>
    requires { HavePlaces places.now replies.now }
    ensures { OnOk result (out.new ≡ out.old ++ flat_map reply_text (put_in places.now replies.now)) }
{
    let mut rest = replies;
    for place in places {
        write_reply(alloc, reply_at(place, rest), out)?;
        rest = behind(place, rest);
    }
    Ok(())
}
