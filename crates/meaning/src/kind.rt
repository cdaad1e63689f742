// The option types of document 01's table, by name. specs/Kinds.antt has the same names, with `-` for `_`.
ghost use Rattle.std.specs.Prelude.{◌≡◌};
ghost use Rattle.meaning.specs.Kinds.{among, known, may_hold};

use crate::message::{End, Plane};

pub const DATALINK_IDENTIFIER: u8 = 1;

pub const LINK_INSTANCE: u8 = 3;

pub const DATALINK_CONTEXT: u8 = 4;

pub const CHANNEL_STATUS: u8 = 5;

pub const FLOW_WINDOW: u8 = 6;

pub const PACKET_DATA: u8 = 128;

pub const CHANNEL_IDENTIFIER: u8 = 129;

pub const EXPIRATION_TIME: u8 = 130;

pub const FLOW_SEQUENCE: u8 = 134;

// Whether a type is known: every other is unknown, and skipped.
pub fn is_known(kind: u8) -> bool
    ensures { result ≡ among kind known }
{
    match kind {
        DATALINK_IDENTIFIER => true,
        LINK_INSTANCE => true,
        DATALINK_CONTEXT => true,
        CHANNEL_STATUS => true,
        FLOW_WINDOW => true,
        PACKET_DATA => true,
        CHANNEL_IDENTIFIER => true,
        EXPIRATION_TIME => true,
        FLOW_SEQUENCE => true,
        _ => false,
    }
}

fn ips_control(kind: u8) -> bool
    ensures { result ≡ among kind (may_hold Plane.Control End.Ips) }
{
    match kind {
        DATALINK_IDENTIFIER => true,
        FLOW_SEQUENCE => true,
        _ => false,
    }
}

fn ips_data(kind: u8) -> bool
    ensures { result ≡ among kind (may_hold Plane.Data End.Ips) }
{
    match kind {
        DATALINK_IDENTIFIER => true,
        PACKET_DATA => true,
        CHANNEL_IDENTIFIER => true,
        EXPIRATION_TIME => true,
        FLOW_SEQUENCE => true,
        _ => false,
    }
}

fn radio_control(kind: u8) -> bool
    ensures { result ≡ among kind (may_hold Plane.Control End.Radio) }
{
    match kind {
        DATALINK_IDENTIFIER => true,
        CHANNEL_STATUS => true,
        LINK_INSTANCE => true,
        DATALINK_CONTEXT => true,
        FLOW_WINDOW => true,
        _ => false,
    }
}

fn radio_data(kind: u8) -> bool
    ensures { result ≡ among kind (may_hold Plane.Data End.Radio) }
{
    match kind {
        DATALINK_IDENTIFIER => true,
        PACKET_DATA => true,
        CHANNEL_IDENTIFIER => true,
        _ => false,
    }
}

// Whether a message of a plane and an end may hold an option of a type.
pub fn may_hold(plane: Plane, end: End, kind: u8) -> bool
    ensures { result ≡ among kind (may_hold plane end) }
{
    match plane {
        Plane::Control => match end {
            End::Ips => ips_control(kind),
            End::Radio => radio_control(kind),
        },
        Plane::Data => match end {
            End::Ips => ips_data(kind),
            End::Radio => radio_data(kind),
        },
    }
}
