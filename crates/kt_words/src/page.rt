//! The manual page.
//! Cited by other crates.
#![tactic(auto, using(crate::proofs::Growing::growing))]

ghost use Rattle.std.specs.Prelude.{All, IfOk, OnOk};
ghost use Rattle.kt_words.specs.Grammar.{HasWords, grammar};
ghost use Rattle.kt_words.specs.Plain.{IsPlain};
ghost use Rattle.kt_words.specs.auxiliary.Growth.{Extends, HasCommands};
ghost use Rattle.kt_words.specs.auxiliary.Parts.{IsPlainCommand, IsPlainStatus};

use crate::command_table::{ABOUT, VERSION, commands};
use crate::escape::{Place, push_escaped};
use crate::page_commands::{push_commands, push_synopsis};
use crate::status_table::{StatusWords, statuses};
use crate::text::push_text;
use crate::words::CommandWords;
use std::alloc::{AllocError, Global};

/// What stands behind the synopsis.
const DESCRIPTION: &str = r#".SH DESCRIPTION
Workers put tuples into a space and take them from there; shards hold the tuples.
Each worker and each shard is a node.
Nodes save their states together by checkpoints.
A node that fails goes back to its permanent checkpoint, as does each node that heard of what it lost;
that work is then done again.
.PP
A \fIscenario\fR says who takes part, by a script for each worker, and what is done.
It is a text, and is read from the file \fISCENARIO\fR, or from standard input where that is \fB\-\fR or left out.
A scenario of steps says who does what, one step after the other; it is for \fBreplay\fR and \fBresume\fR.
A scenario of fault lines leaves the steps to the nodes; it is for \fBrun\fR.
The line \fBfail\fR \fINODE\fR \fBafter\fR \fIN\fR has a node fail once it has made \fIN\fR steps of its own:
\fIN\fR counts the steps of that node alone, and not those of the others.
So does the line \fBcheck\fR \fINODE\fR \fBafter\fR \fIN\fR, by which a node begins a checkpoint.
.PP
The report says what survives, how much was lost, and which tuples the space and its permanent checkpoints hold.
.SH COMMANDS
"#;

/// The options of the program, and what stands before the statuses.
const OPTIONS: &str = r#".SH OPTIONS
.TP
\fB\-h\fR, \fB\-\-help\fR
Prints the help, of the program or of the command before it.
.TP
\fB\-V\fR, \fB\-\-version\fR
Prints the version.
.SH EXIT STATUS
With a status other than 0 a line on standard error says what it was, and nothing is on standard output; only where
writing failed may a part be there.
Of a scenario with a step that is refused \fBtrace\fR and \fBdraw\fR show what was before, and say then what it was.
"#;

/// What stands behind the statuses.
const REST: &str = r#".SH FAULT LINES
The line
.B fail s1 after 3
of a scenario for
.B run
makes s1 fail once it has made 3 steps of its own, or more.
Its steps are counted on through its failures and its restarts.
So a second such line that is due by then strikes as soon as the node is back: many of them make a storm, and
.B \-\-explain
says when each of them struck.
.SH FILES
.TP
\fIFILE\fR
A store is an SQLite database, which
.BR sqlite3 (1)
opens.
Beside it stands its log, \fIFILE\fR\-wal, while a command uses it, and after a stop until the next one has ended.
.SH EXAMPLES
Makes the steps of a scenario, which is in the folder of the sources:
.PP
.RS
.nf
linda_kt replay scenarios/put_and_take.scn
.fi
.RE
.PP
Runs one by threads, keeps the checkpoints in a file, and goes on from there after a stop:
.PP
.RS
.nf
linda_kt run \-\-store a.db scenarios/checks_and_failures.scn
linda_kt run \-\-resume \-\-store a.db scenarios/checks_and_failures.scn
.fi
.RE
.PP
Keeps the steps that the threads made, and makes them once more:
.PP
.RS
.nf
linda_kt run \-\-journal scenarios/a_shard_fails.scn > steps.scn
linda_kt replay steps.scn
.fi
.RE
.PP
Has bash complete the words, and shows this page:
.PP
.RS
.nf
source <(linda_kt completion bash)
linda_kt manual | man \-l \-
.fi
.RE
.SH SEE ALSO
.BR sqlite3 (1)
.PP
docs/FORMATS.md in the folder of the sources has the scenarios, the reports and each line on standard error.
"#;

/// The manual page, of section 1, for `man`.
pub fn manual(alloc: Global) -> Result<Vec<u8>, AllocError>
    ensures plain { IfOk result (λ page. IsPlain page.items) }
    ensures words { IfOk result (λ page. HasWords page.items grammar) }
{
    let mut out = Vec::new(alloc);
    push_page(&mut out, commands())?;
    Ok(out)
}

/// Appends the page.
fn push_page(out: &mut Vec<u8>, commands: &[CommandWords]) -> Result<(), AllocError>
    requires { All IsPlainCommand commands.now }
    ensures extends { OnOk result (Extends out.old.items out.new.items) }
    ensures words { OnOk result (HasCommands out.new.items commands.now) }
{
    push_head(out)?;
    push_synopsis(out, commands)?;
    push_text(out, DESCRIPTION)?;
    push_commands(out, commands)?;
    push_text(out, OPTIONS)?;
    push_statuses(out, statuses())?;
    push_text(out, REST)
}

/// Appends the title and the name.
fn push_head(out: &mut Vec<u8>) -> Result<(), AllocError>
    ensures { OnOk result (Extends out.old.items out.new.items) }
{
    push_text(out, ".TH LINDA_KT 1 \"\" \"linda_kt ")?;
    push_text(out, VERSION)?;
    push_text(
        out,
        "\" \"User Commands\"\n.nh\n.ad l\n.SH NAME\nlinda_kt \\- ",
    )?;
    push_text(out, ABOUT)?;
    push_text(out, "\n")
}

/// Appends what each status means.
fn push_statuses(out: &mut Vec<u8>, statuses: &[StatusWords]) -> Result<(), AllocError>
    requires { All IsPlainStatus statuses.now }
    ensures { OnOk result (Extends out.old.items out.new.items) }
{
    for status in statuses {
        push_status(out, status)?;
    }
    Ok(())
}

/// Appends what the status means.
fn push_status(out: &mut Vec<u8>, status: &StatusWords) -> Result<(), AllocError>
    requires { IsPlainStatus status.now }
    ensures { OnOk result (Extends out.old.items out.new.items) }
{
    push_text(out, ".TP\n\\fB")?;
    push_text(out, status.number)?;
    push_text(out, "\\fR\n")?;
    push_escaped(out, Place::Roff, status.text)?;
    push_text(out, "\n")
}
