//! What a flow asks for over its service class.

ghost use Rattle.std.specs.Prelude.{◌≡◌};
ghost use Rattle.param_sets.specs.Overridden.{overridden_of};

use tlv24::{FlowFields, FlowTlv};

/// Returns the encoding of a flow of a service class: of the subtypes 7 to 22 the value that is
/// stated, else the class's; all others (1 to 6) as stated.
pub fn overridden(class: &FlowTlv, stated: &FlowTlv) -> FlowTlv
    ensures exact { result ≡ overridden_of class.now stated.now }
{
    let class = class.get_fields();
    let stated = stated.get_fields();
    FlowTlv::new(FlowFields {
        reference: stated.reference,
        sfid: stated.sfid,
        sid: stated.sid,
        class_name: stated.class_name,
        errored: stated.errored,
        set_type: stated.set_type,
        traffic_priority: stated.traffic_priority.or(class.traffic_priority),
        max_sustained_rate: stated.max_sustained_rate.or(class.max_sustained_rate),
        max_burst: stated.max_burst.or(class.max_burst),
        min_reserved_rate: stated.min_reserved_rate.or(class.min_reserved_rate),
        scheduling_type: stated.scheduling_type.or(class.scheduling_type),
        request_policy: stated.request_policy.or(class.request_policy),
        polling_interval: stated.polling_interval.or(class.polling_interval),
        poll_jitter: stated.poll_jitter.or(class.poll_jitter),
        grant_size: stated.grant_size.or(class.grant_size),
        grant_interval: stated.grant_interval.or(class.grant_interval),
        grant_jitter: stated.grant_jitter.or(class.grant_jitter),
        grants_per_interval: stated.grants_per_interval.or(class.grants_per_interval),
    })
}
