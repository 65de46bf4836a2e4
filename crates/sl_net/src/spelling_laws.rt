// The law of spellings: no two choices of a net have one spelling.
ghost use Rattle.sl_net.specs.Spelled.{HasOneSpelling};

use crate::names::nets_have_names;
use crate::net::Net;

/// No two choices of a net have one spelling: the names of its devices and of its hosts are names
/// and differ. So the choice that `find_choice` finds is the only one that the text spells.
pub fn one_spelling(net: &Net)
    ensures { HasOneSpelling net.now }
{
    nets_have_names(net);
    net.parts();
}
