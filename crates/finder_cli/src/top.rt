ghost use Rattle.std.specs.Prelude.{◌≡◌, ◌≢◌, ◌≤◌, ◌∷◌, Contains, IsSome, IfOk, Some};
ghost use Rattle.io_edges.specs.Counts.{Rose};
ghost use Rattle.command_words.specs.Words.{CountsFew, NamesFewFiles, command_of};
ghost use Rattle.replies.specs.Printed.{PrintsWhole, PrintsFront};
ghost use Rattle.replies.specs.Status.{code};
ghost use Rattle.replies.specs.Through.{Gives, IsText};
ghost use Rattle.replies.specs.declared.reply.Reply.{Reply};
ghost use Rattle.finder_cli.specs.Answers.{Answers, CommandAnswers};
ghost use Rattle.drill_command.specs.Drilling.{IsDrilled};
ghost use Rattle.finder_cli.specs.Examining.{ChecksDocument, DrillsNetwork, ReplaysRules};
ghost use Rattle.finder_cli.specs.Headline.{Headline};
ghost use Rattle.finder_cli.specs.Listing.{ListsWalks};
ghost use Rattle.finder_cli.specs.Sentences.{CountsFiles, FindsFault, FindsLong, FindsMissing, FindsNone, FindsPast, FindsTooBig, FindsUnknown, FindsUsage, IsNotRead, IsTooLarge, statuses_of};
ghost use Rattle.finder_cli.specs.Usage.{usage_line};

use check_command::{Question, examine};
use command_words::{Command, WordsFault, parse_words};
use drill_command::drill;
use find_command::find;
use io_edges::{Files, Sink};
use k_find_command::k_find;
use ml_base::NoMemory;
use replies::{Reply, Status, Stop, Text, one_line, print};
use std::alloc::Global;
use survey_command::survey;

#[tactic(auto, unfolding(crate::specs::Usage::usage_line))]
fn make_usage_line(alloc: Global) -> Result<Text, NoMemory>
    ensures { IfOk result (λ line. line ≡ usage_line) }
{
    Text::copy(
        alloc,
        b"usage: find|route FROM LABEL TO LABEL FILE.. | check|replay ANSWER FILE.. | survey FILE.. | drill N\n",
    )
}

fn usage(alloc: Global) -> Result<Reply, NoMemory>
    ensures { IfOk result (IsText Status.Usage usage_line) }
{
    one_line(alloc, Status::Usage, make_usage_line(alloc)?)
}

/// The reply to `drill`, which reads no file.
fn perform_drill(alloc: Global, levels: u32) -> Result<Reply, Stop>
    requires some { 1 ≤ levels }
    requires few { levels ≤ 4096 }
    ensures { Gives result (IsDrilled levels) }
{
    let reply = drill(alloc, levels)?;
    Ok(reply)
}

fn perform<F: Files>(alloc: Global, command: &Command, files: &mut F) -> Result<Reply, Stop>
    requires few { NamesFewFiles command.now }
    requires count { CountsFew command.now }
    ensures { Gives result (CommandAnswers (Some command.now) (F.store files.old) (F.store files.new)) }
{
    match command {
        Command::Find {
            request,
            files: names,
            potentials,
        } => find(alloc, request, *potentials, names.as_slice(), files),
        Command::KFind {
            k,
            request,
            files: names,
        } => k_find(alloc, request, *k, names.as_slice(), files),
        Command::Check {
            answer,
            files: names,
        } => examine(alloc, Question::Check, answer, names.as_slice(), files),
        Command::Replay {
            answer,
            files: names,
        } => examine(alloc, Question::Replay, answer, names.as_slice(), files),
        Command::Survey { files: names } => survey(alloc, names.as_slice(), files),
        Command::Drill { levels } => perform_drill(alloc, *levels),
    }
}

fn reply_to<F: Files>(alloc: Global, words: &[String], files: &mut F) -> Result<Reply, NoMemory>
    ensures { IfOk result (Answers words.now (F.store files.old) (F.store files.new)) }
{
    match parse_words(alloc, words) {
        Ok(command) => match perform(alloc, &command, files) {
            Ok(reply) => Ok(reply),
            Err(Stop::Ended(reply)) => Ok(reply),
            Err(Stop::NoMemory) => Err(NoMemory),
        },
        Err(WordsFault::Usage) => usage(alloc),
        Err(WordsFault::NoMemory) => Err(NoMemory),
    }
}

/// Does what the words ask for, and answers the exit status. All memory is taken before the first byte is written.
pub fn run<F: Files, K: Sink>(alloc: Global, words: &[String], files: &mut F, out: &mut K) -> u8
    // What is printed is one of the replies that these words may have, whole, and its status is the run's.
    ensures whole { result ≢ 6 → result ≢ 10 →
        PrintsWhole (Answers words.now (F.store files.old) (F.store files.new)) result (K.written out.old) (K.written out.new) }

    // Over told contents, where reading has not failed, this is the status of each reply that may be.
    ensures settled { IsSome (F.store files.old).contents → ¬ Rose (F.store files.old).faults (F.store files.new).faults → result ≢ 6 → result ≢ 10 →
        (reply : Reply) → Answers words.now (F.store files.old) (F.store files.new) reply → result ≡ code reply.status }

    // The status is one of those that the words may have.
    ensures statuses { Contains (6 ∷ 10 ∷ statuses_of (command_of words.now)) result }

    // For all files and end ports that `find` accepts, the hops it prints carry every data unit from source to target, each adaptation
    // undone by its match and the stack unchanged; no walk of any length or stack depth costs less; the checker accepts the printed
    // potentials; and it prints `none` exactly where no walk exists.
    ensures headline { Headline words.now (F.store files.old) (F.store files.new) result (K.written out.old) (K.written out.new) }

    // 0, 1, 4, 7 and 8, for `k-find`: the text is a list of the cheapest walks of the request, or the line on why it is not known.
    ensures lists { ListsWalks words.now (F.store files.old) (F.store files.new) result (K.written out.old) (K.written out.new) }

    // 0 and 9, for `check` and `replay`: the line tells the verdict on the document, or what its rules do.
    ensures checked { ChecksDocument words.now (F.store files.old) (F.store files.new) result (K.written out.old) (K.written out.new) }
    ensures replayed { ReplaysRules words.now (F.store files.old) (F.store files.new) result (K.written out.old) (K.written out.new) }

    // 0, 7 and 8, for `drill`: the text is the summary of an exact answer to the request of that network.
    ensures drilled { DrillsNetwork words.now result (K.written out.old) (K.written out.new) }

    // 1, 7 and 8: exactly where no walk exists, where each costs 2^64 or more, and where the cheapest are too long to list.
    ensures none { FindsNone words.now (F.store files.old) (F.store files.new) result }
    ensures past { FindsPast words.now (F.store files.old) (F.store files.new) result }
    ensures long { FindsLong words.now (F.store files.old) (F.store files.new) result }

    // 0, for `survey`: the text is the counts of the files.
    ensures counts { CountsFiles words.now (F.store files.old) (F.store files.new) result (K.written out.old) (K.written out.new) }

    // 2, 3 and 4: exactly where the words spell no command, where the files are no accepted topology, and where the request is not
    // known to it.
    ensures usage { FindsUsage words.now result (K.written out.old) (K.written out.new) }
    ensures fault { FindsFault words.now (F.store files.old) (F.store files.new) result (K.written out.old) (K.written out.new) }
    ensures unknown { FindsUnknown words.now (F.store files.old) (F.store files.new) result }

    // 5 and 11, over told contents: exactly where the first file that is missing or too big is missing, or is too big.
    ensures missing { FindsMissing words.now (F.store files.old) (F.store files.new) result (K.written out.old) (K.written out.new) }
    ensures too_big { FindsTooBig words.now (F.store files.old) (F.store files.new) result (K.written out.old) (K.written out.new) }

    // 5 and 11, whatever the store tells: the last read of the run is of a word of the command, whose file is not there or failed, or is
    // too big.
    ensures not_read { result ≡ 5 → IsNotRead words.now (F.store files.old) (F.store files.new) (K.written out.old) (K.written out.new) }
    ensures too_large { result ≡ 11 → IsTooLarge words.now (F.store files.old) (F.store files.new) (K.written out.old) (K.written out.new) }

    // 10: memory ran out, and nothing is printed.
    ensures memory { result ≡ 10 → K.written out.new ≡ K.written out.old }

    // 6: a write failed, and a front of such a reply is printed.
    ensures failed { result ≡ 6 → Rose (K.faults out.old) (K.faults out.new) }
    ensures front { result ≡ 6 →
        PrintsFront (Answers words.now (F.store files.old) (F.store files.new)) (K.written out.old) (K.written out.new) }
{
    match reply_to(alloc, words, files) {
        Ok(reply) => print(&reply, out),
        Err(NoMemory) => 10,
    }
}
