// Laws of traces. The functions do nothing, or call another law: their contracts are the laws, and
// the proofs are in proofs/.
ghost use Rattle.std.specs.Prelude.{List};
ghost use Rattle.std.specs.List.{All};
ghost use Rattle.sl_machine.specs.declared.wiring.Entry.{Entry};
ghost use Rattle.sl_model.specs.History.{Losses};
ghost use Rattle.sl_model.specs.Setup.{Setup};
ghost use Rattle.sl_model.specs.Books.{schedule_of};
ghost use Rattle.sl_model.specs.World.{IsLegal};
ghost use Rattle.sl_report.specs.TraceText.{IsEntryOf, ReadsBack};

use sl_net::Net;
use sl_read::spellings_name_choices;

/// The lines of a trace after its first are a script, whose entries are those of the book.
pub fn traces_are_scripts(net: &Net)
    ensures { (entries : List Entry) → All (IsEntryOf net.now) entries → ReadsBack net.now entries }
{
    spellings_name_choices(net);
}

/// Each entry of a book in which none is idle is a choice of the net.
pub fn legal_books_are_choices()
    ensures { (s : Setup) (lost : Losses) (book : List Entry) → IsLegal s lost (schedule_of book)
        → All (IsEntryOf s.net) book }
{}
