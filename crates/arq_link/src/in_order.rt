//! What holds of every run of endpoints, whatever the network between them does.
ghost use Rattle.arq_link.specs.Net.{ArrivesInOrder, Remains};

/// Does nothing. Its contract says what holds of all runs of endpoints whose calls are those of this crate, over links that
/// fail in any call, and that lose, repeat and reorder what they are given:
///
/// - each process was handed from each sender a prefix of what that sender gave to it;
/// - what was given, has a number and was not handed out yet still waits with its sender.
///
/// That anything arrives is not said: a network may lose everything.
pub fn arrives_in_order()
    ensures prefix { ArrivesInOrder }
    ensures remains { Remains }
{}
