// Laws of what runs print, and of the worlds that they lead to. The functions do nothing but call other
// laws: their contracts are the laws, and the proofs are in proofs/.
ghost use Rattle.std.specs.Prelude.{ℕ, List};
ghost use Rattle.sl_machine.specs.declared.wiring.Entry.{Entry};
ghost use Rattle.sl_proto.specs.Nodes.{NodeState};
ghost use Rattle.sl_proto.specs.RunBook.{IsRunBook};
ghost use Rattle.sl_emul.specs.Threaded.{IsThreadedBook};
ghost use Rattle.sl_app.specs.Ends.{SourceChange, IsStepped, IsThreaded};
ghost use Rattle.sl_app.specs.Printed.{IsRightOf, IsWindowed};

use sl_check::printed_runs_are_right;
use sl_model::worlds_are_in_window;
use sl_net::Input;
use sl_read::inputs_are_accepted;

/// What `step --trace` and `run --trace` print for an input is checked with yes, where each line of
/// the input ends, none is `---`, and there are 4,194,304 bytes in all at most.
pub fn printed_runs_are_checked(input: &Input)
    ensures stepped { IsRightOf IsRunBook input.now }
    ensures threaded { IsRightOf IsThreadedBook input.now }
{
    printed_runs_are_right(input)
}

/// In the world whose image are the nodes that the top call returns at status 0 the window law holds,
/// with each of its parts: what is known of units, stamps and Begin numbers never fall on their way,
/// each number is at most K, and K is at most F + W. All that is asked is what the contract of the
/// top call says.
pub fn served_worlds_are_in_window()
    ensures stepped { (r : SourceChange) (book : List Entry) (front : ℕ)
        (nodes : List NodeState) (text : List ℕ)
        → (run : IsStepped r book front nodes text) → IsWindowed run.input book }
    ensures threaded { (r : SourceChange) (book : List Entry) (front : ℕ)
        (nodes : List NodeState) (text : List ℕ)
        → (run : IsThreaded r book front nodes text) → IsWindowed run.input book }
{
    inputs_are_accepted();
    worlds_are_in_window()
}
