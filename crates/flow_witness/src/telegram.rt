//! The Telegram Problem as a composition: that its worked values are one.
ghost use Rattle.flow_witness.specs.Telegram.{TelegramComposes};

/// The network of a reader, a Words, a Fill and a writer, on a text of two lines, has a composition, whose streams are written
/// out in `specs/Telegram.antt`; in it, and in every other, the writer's file is the worked one.
pub fn the_telegram_composes()
    ensures { TelegramComposes }
{}
