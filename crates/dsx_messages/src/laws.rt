//! What the reading function of the contracts answers.

ghost use Rattle.std.specs.Prelude.{◌≡◌, ◌≢◌, List, ℕ, Ok, Err};
ghost use Rattle.tlv24.specs.Law.{AreBytes};
ghost use Rattle.dsx_messages.specs.Reading.{message_of};
ghost use Rattle.dsx_messages.specs.Message.{Says, IsFirstMessageFault};
ghost use Rattle.dsx_messages.specs.declared.message.Message.{Message};
ghost use Rattle.dsx_messages.specs.declared.fault.MessageFault.{MessageFault};
ghost use Rattle.dsx_messages.specs.declared.fault.MessageFault.TheVariants.{NoMemory};

/// States that `message_of`, by which contracts read a message as a function, answers what the
/// bytes say, and what they say it answers; else it answers their first fault. It takes no memory.
pub fn message_is_read()
    ensures found { (bytes : List ℕ) (m : Message) → AreBytes bytes → message_of bytes ≡ Ok m → Says bytes m }
    ensures only { (bytes : List ℕ) (m : Message) → AreBytes bytes → Says bytes m → message_of bytes ≡ Ok m }
    ensures fault { (bytes : List ℕ) (fault : MessageFault) → AreBytes bytes → message_of bytes ≡ Err fault
        → IsFirstMessageFault bytes fault }
    ensures memory { (bytes : List ℕ) → AreBytes bytes → message_of bytes ≢ Err NoMemory }
{}
