//! What is told behind the lines of a push.
ghost use Rattle.std.specs.Prelude.{◌≡◌, ◌++◌, OnOk};

use crate::Explainer;
use crate::lines::{error_of, first_line};
use crate::told::Told;
use desk_words::Stream;
use rep_lists::NoMemory;
use rep_values::SiteName;
use site_words::{Plan, Pushed, add_call_error, add_row_error, plan_push};
use std::alloc::Global;

/// A push that was made between two sites, and of one of rows how its packets fared, where both sites are there.
#[derive(Clone, Copy)]
pub(crate) struct Made<'a> {
    stream: Stream,
    from: &'a SiteName,
    to: &'a SiteName,
    pushed: Option<&'a Pushed>,
}

impl Explainer {
    /// What a push between two sites is about to send, where both are there.
    pub(crate) fn plan_of(
        &self,
        from: &SiteName,
        to: &SiteName,
        count: Option<u64>,
    ) -> Option<Plan> {
        let sender = self.steps.world().site(from)?;
        let receiver = self.steps.world().site(to)?;
        Some(plan_push(sender, receiver, count))
    }

    /// How the packets of a push fared.
    fn fared(
        &mut self,
        alloc: Global,
        from: &SiteName,
        to: &SiteName,
        plan: Option<Plan>,
    ) -> Result<Option<Pushed>, NoMemory>
        ensures { self.new ≡ self.old }
    {
        match plan {
            Some(plan) => Ok(Some(plan.fare(alloc, &mut self.ways, from, to)?)),
            None => Ok(None),
        }
    }

    /// Tells the line of a push of rows and those of its errors, with words behind each.
    pub(crate) fn tell_rows(
        &mut self,
        alloc: Global,
        from: &SiteName,
        to: &SiteName,
        plan: Option<Plan>,
        bytes: &[u8],
        told: &mut Told,
    ) -> Result<(), NoMemory>
        ensures world { self.new ≡ self.old }
        ensures told { OnOk result (told.new ≡ told.old ++ bytes.now) }
    {
        let pushed = self.fared(alloc, from, to, plan)?;
        self.tell_fared(alloc, from, to, pushed.as_ref(), bytes, told)
    }

    /// Tells those lines, where it is known how the push fared.
    fn tell_fared<'a>(
        &self,
        alloc: Global,
        from: &'a SiteName,
        to: &'a SiteName,
        pushed: Option<&'a Pushed>,
        bytes: &[u8],
        told: &mut Told,
    ) -> Result<(), NoMemory>
        ensures { OnOk result (told.new ≡ told.old ++ bytes.now) }
    {
        let made = Made {
            stream: Stream::Rows,
            from,
            to,
            pushed,
        };
        self.tell_push(alloc, made, bytes, told)
    }

    /// Tells the line of a push of calls and those of its errors, with words behind the latter.
    pub(crate) fn tell_calls<'a>(
        &self,
        alloc: Global,
        from: &'a SiteName,
        to: &'a SiteName,
        bytes: &[u8],
        told: &mut Told,
    ) -> Result<(), NoMemory>
        ensures { OnOk result (told.new ≡ told.old ++ bytes.now) }
    {
        let made = Made {
            stream: Stream::Calls,
            from,
            to,
            pushed: None,
        };
        self.tell_push(alloc, made, bytes, told)
    }

    /// Tells the line of a push and those of its errors, with words behind each.
    fn tell_push(
        &self,
        alloc: Global,
        made: Made<'_>,
        bytes: &[u8],
        told: &mut Told,
    ) -> Result<(), NoMemory>
        ensures { OnOk result (told.new ≡ told.old ++ bytes.now) }
    {
        let mut left = bytes;
        while !left.is_empty() {
            let (line, behind) = left.split_at(first_line(left));
            self.tell_line(alloc, made, line, told)?;
            left = behind;
        }
        Ok(())
    }

    /// Tells a line of a push, with words behind it.
    fn tell_line(
        &self,
        alloc: Global,
        made: Made<'_>,
        line: &[u8],
        told: &mut Told,
    ) -> Result<(), NoMemory>
        ensures { OnOk result (told.new ≡ told.old ++ line.now) }
    {
        told.add_report(alloc, line)?;
        let words = self.push_words(alloc, made, line)?;
        told.add_words(words)
    }

    /// The words behind a line of a push.
    fn push_words(&self, alloc: Global, made: Made<'_>, line: &[u8]) -> Result<String, NoMemory> {
        let mut text = String::new(alloc);
        self.add_push_words(alloc, &mut text, made, line)?;
        Ok(text)
    }

    /// Appends the words behind a line of a push.
    fn add_push_words(
        &self,
        alloc: Global,
        text: &mut String,
        made: Made<'_>,
        line: &[u8],
    ) -> Result<(), NoMemory> {
        match error_of(line) {
            Some((origin, position)) => {
                self.add_error(alloc, text, made.stream, made.to, &origin, position)
            }
            None => self.add_notes(text, made),
        }
    }

    /// Appends what became of the positions that a push sent.
    fn add_notes(&self, text: &mut String, made: Made<'_>) -> Result<(), NoMemory> {
        let Some(pushed) = made.pushed else {
            return Ok(());
        };
        let Some(sender) = self.steps.world().site(made.from) else {
            return Ok(());
        };
        let Some(receiver) = self.steps.world().site(made.to) else {
            return Ok(());
        };
        Ok(pushed.add_notes(text, sender, receiver)?)
    }

    /// Appends the words of an error that stands.
    pub(crate) fn add_error(
        &self,
        alloc: Global,
        text: &mut String,
        stream: Stream,
        here: &SiteName,
        origin: &SiteName,
        position: u64,
    ) -> Result<(), NoMemory> {
        match stream {
            Stream::Rows => self.add_row_error(alloc, text, here, origin, position),
            Stream::Calls => self.add_call_error(text, here, origin, position),
        }
    }

    /// Appends the words of an error of rows.
    fn add_row_error(
        &self,
        alloc: Global,
        text: &mut String,
        here: &SiteName,
        origin: &SiteName,
        position: u64,
    ) -> Result<(), NoMemory> {
        match self.steps.world().site(here) {
            Some(site) => add_row_error(alloc, text, site, origin, position),
            None => Ok(()),
        }
    }

    /// Appends the words of an error of calls.
    fn add_call_error(
        &self,
        text: &mut String,
        here: &SiteName,
        origin: &SiteName,
        position: u64,
    ) -> Result<(), NoMemory> {
        match self.steps.world().proc_site(here) {
            Some(site) => Ok(add_call_error(text, here, site.errors(), origin, position)?),
            None => Ok(()),
        }
    }
}
