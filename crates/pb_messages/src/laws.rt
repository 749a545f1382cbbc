// What follows from the spelling and the reading of events and headers, for all of them.
ghost use Rattle.std.specs.Prelude.{◌≡◌, Ok};
ghost use Rattle.pb_wire.specs.declared.payload.PayloadType.{PayloadType};
ghost use Rattle.pb_messages.specs.declared.event.Event.{Event};
ghost use Rattle.pb_messages.specs.Event.{event_of, IsOfType};
ghost use Rattle.pb_messages.specs.Spelling.{event_text, FitsEvent};
ghost use Rattle.pb_messages.specs.declared.info.PayloadInfo.{PayloadInfo};
ghost use Rattle.pb_messages.specs.Info.{info_of};
ghost use Rattle.pb_messages.specs.InfoSpelling.{info_text, FitsInfo};

/// What `encode` writes of an event is read as that event.
pub fn written_events()
    ensures { (ty : PayloadType) (event : Event) → IsOfType ty event.val → FitsEvent event
        → event_of ty (event_text event) ≡ Ok event }
{}

/// What `encode_info` writes of a header is read as that header.
pub fn written_headers()
    ensures { (info : PayloadInfo) → FitsInfo info → info_of (info_text info) ≡ Ok info }
{}
