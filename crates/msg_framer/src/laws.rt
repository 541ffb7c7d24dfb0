ghost use Rattle.msg_framer.specs.Laws.{StreamIsThere, OneStream};

/// Octets are one stream: their messages and their tail are computed, and there are no others.
pub fn streams_are_one()
    ensures there { StreamIsThere }
    ensures one { OneStream }
{}
