//! What is counted of a run of the generator's script.
ghost use Rattle.std.specs.Prelude.{◌≡◌, IfOk, string_bytes};
ghost use Rattle.workload_gen.specs.Summaries.{after_line, answered, counted, nothing_yet, summary_text, with_answer, with_error, with_ok, with_reply};

use crate::line::Step;
use crate::text::add;
use command_lines::{LineAnswer, LineReply};
use std::alloc::{AllocError, Global};
use tree_model::Reply;

/// The counts of a run. Each stays at the greatest number.
#[derive(Clone, Copy, Debug, PartialEq, Eq)]
pub struct Summary {
    pub books: u64,
    pub commits: u64,
    pub deadlocks: u64,
    pub errors: u64,
    /// How many books the find answered, 0 where it got no list.
    pub found: u64,
    /// Lines of the script.
    pub lines: u64,
    pub ok: u64,
    pub waits: u64,
}

impl Summary {
    /// The counts before the first line, of a catalogue of so many books.
    pub fn new(books: u32) -> Summary
        ensures { result ≡ nothing_yet books }
    {
        Summary {
            books: u64::from(books),
            commits: 0,
            deadlocks: 0,
            errors: 0,
            found: 0,
            lines: 0,
            ok: 0,
            waits: 0,
        }
    }

    /// Counts a line of the script and all the replies that it brings.
    pub fn count(&mut self, step: Step, replies: &[LineReply])
        ensures { self.new ≡ after_line self.old step replies.now }
    {
        self.lines = self.lines.saturating_add(1);
        for reply in replies {
            self.count_reply(step, reply);
        }
    }

    fn count_reply(&mut self, step: Step, reply: &LineReply)
        ensures { self.new ≡ counted step self.old reply.now }
    {
        if let LineReply::Said { woke, answer, .. } = reply {
            // A call that had waited answers no commit.
            let commits = matches!(step, Step::Commit) && !*woke;
            self.count_answer(commits, answer);
        }
    }

    fn count_answer(&mut self, commits: bool, answer: &LineAnswer)
        ensures { self.new ≡ with_answer commits self.old answer.now }
    {
        match answer {
            LineAnswer::Reply(reply) => self.count_answered(commits, reply),
            LineAnswer::Session(_) => self.count_error(),
            LineAnswer::Wait { .. } => self.waits = self.waits.saturating_add(1),
            LineAnswer::Deadlock(_) => self.deadlocks = self.deadlocks.saturating_add(1),
        }
    }

    fn count_answered(&mut self, commits: bool, reply: &Reply)
        ensures { self.new ≡ with_reply commits self.old reply.now }
    {
        match reply {
            Reply::Refused(_) => self.count_error(),
            Reply::Found(hits) => {
                self.count_ok();
                self.found = hits.len() as u64;
            }
            _ => {
                self.count_ok();
                if commits {
                    self.commits = self.commits.saturating_add(1);
                }
            }
        }
    }

    fn count_ok(&mut self)
        ensures { self.new ≡ with_ok self.old }
    {
        self.ok = self.ok.saturating_add(1);
    }

    fn count_error(&mut self)
        ensures { self.new ≡ with_error self.old }
    {
        self.errors = self.errors.saturating_add(1);
    }
}

impl Summary {
    /// The line that tells the counts, without its end.
    pub fn text(&self, alloc: Global) -> Result<String, AllocError>
        ensures { IfOk result (λ text. string_bytes text ≡ summary_text self.now) }
    {
        let mut out = String::new(alloc);
        add(alloc, "{\"books\":", self.books, &mut out)?;
        add(alloc, ",\"commits\":", self.commits, &mut out)?;
        add(alloc, ",\"deadlocks\":", self.deadlocks, &mut out)?;
        add(alloc, ",\"errors\":", self.errors, &mut out)?;
        add(alloc, ",\"found\":", self.found, &mut out)?;
        add(alloc, ",\"lines\":", self.lines, &mut out)?;
        add(alloc, ",\"ok\":", self.ok, &mut out)?;
        add(alloc, ",\"waits\":", self.waits, &mut out)?;
        out.push_str("}")?;
        Ok(out)
    }
}
