ghost use Rattle.s38_code.specs.declared.reply.Reply.{Reply};

use s38_code::Reply;

/// Who hears the reply to a call, while the turn lasts.
pub trait Listener {
    /// The states that it may have after a reply.
    ghost hears: { Self → Reply → Self → Type 0 };

    /// Hears the reply. All others wait meanwhile.
    fn hear(&mut self, reply: &Reply)
        ensures { hears self.old reply.now self.new };
}
