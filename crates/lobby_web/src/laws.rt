//! What holds over a socket's whole life.
ghost use Rattle.lobby_web.specs.Happening.{MessagesAreHeeded, SayingsGoOut};
ghost use Rattle.lobby_web.specs.Heading.{HeadsEnd};
ghost use Rattle.lobby_web.specs.Holding.{FloodsAreHeld};

/// Whatever happens to a socket that the lobby does not close, and in whatever pieces its bytes come: it gives the text
/// messages of the frames in front of all bytes that came, each once, whole and in their order.
pub fn law_of_messages()
    ensures { MessagesAreHeeded }
{}

/// Whatever happens to a socket: what was written and what waits are whole frames behind what waited before, and the
/// texts among them are those that were said, each once and in their order.
pub fn law_of_sayings()
    ensures { SayingsGoOut }
{}

/// Whatever a browser sends, where bytes of it are taken only as they are wanted, and however little it takes: what
/// waits for it is bounded, but for what was said to it.
pub fn law_of_floods()
    ensures { FloodsAreHeld }
{}

/// The head of each request, as HTTP/1 has it, has an end among its bytes by which it is read: what came is read in the
/// call that takes the last byte of a head.
pub fn law_of_heads()
    ensures { HeadsEnd }
{}
