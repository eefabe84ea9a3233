//! Confirmation codes.

ghost use Rattle.std.specs.Prelude.{◌≡◌, IfSome, Some};
ghost use Rattle.dsx_messages.specs.Code.{code_number};
ghost use Rattle.dsx_messages.specs.declared.code.Code.{Code};

/// What a response says of a request: the confirmation codes that this profile gives, under their numbers.
#[derive(Clone, Copy, Debug, PartialEq, Eq)]
pub enum Code {
    /// 0, okay.
    Okay,
    /// 1, reject-other.
    RejectOther,
    /// 2, reject-unrecognized-configuration-setting.
    RejectUnrecognizedSetting,
    /// 3, reject-temporary (reject-resource).
    RejectTemporary,
    /// 4, reject-permanent (reject-admin).
    RejectPermanent,
    /// 5, reject-not-owner.
    RejectNotOwner,
    /// 6, reject-service-flow-not-found.
    RejectFlowNotFound,
    /// 8, reject-required-parameter-not-present.
    RejectRequiredParameterNotPresent,
    /// 10, reject-unknown-transaction-id.
    RejectUnknownTransaction,
    /// 18, reject-duplicate-reference-ID-or-index-in-message.
    RejectDuplicateReference,
    /// 19, reject-multiple-upstream-service-flows.
    RejectMultipleUpstreamFlows,
    /// 23, reject-parameter-invalid-for-context.
    RejectInvalidForContext,
    /// 24, reject-authorization-failure.
    RejectAuthorizationFailure,
}

impl Code {
    /// Returns the number on the wire.
    pub fn number(self) -> u8
        ensures { result ≡ code_number self }
    {
        match self {
            Code::Okay => 0,
            Code::RejectOther => 1,
            Code::RejectUnrecognizedSetting => 2,
            Code::RejectTemporary => 3,
            Code::RejectPermanent => 4,
            Code::RejectNotOwner => 5,
            Code::RejectFlowNotFound => 6,
            Code::RejectRequiredParameterNotPresent => 8,
            Code::RejectUnknownTransaction => 10,
            Code::RejectDuplicateReference => 18,
            Code::RejectMultipleUpstreamFlows => 19,
            Code::RejectInvalidForContext => 23,
            Code::RejectAuthorizationFailure => 24,
        }
    }

    /// Returns the code of a number on the wire; none for a number that this profile gives to no
    /// code.
    pub fn from_number(number: u8) -> Option<Code>
        ensures found { IfSome result (λ code. code_number code ≡ number) }
        ensures every { (code : Code) → code_number code ≡ number → result ≡ Some code }
    {
        match number {
            0 => Some(Code::Okay),
            1 => Some(Code::RejectOther),
            2 => Some(Code::RejectUnrecognizedSetting),
            3 => Some(Code::RejectTemporary),
            4 => Some(Code::RejectPermanent),
            5 => Some(Code::RejectNotOwner),
            6 => Some(Code::RejectFlowNotFound),
            8 => Some(Code::RejectRequiredParameterNotPresent),
            10 => Some(Code::RejectUnknownTransaction),
            18 => Some(Code::RejectDuplicateReference),
            19 => Some(Code::RejectMultipleUpstreamFlows),
            23 => Some(Code::RejectInvalidForContext),
            24 => Some(Code::RejectAuthorizationFailure),
            _ => None,
        }
    }
}
