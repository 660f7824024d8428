//! Worked pages, computed by the meaning: each is a clause of a function without a body of its own.
#![tactic(auto)]

ghost use Rattle.page_meaning_tests.specs.Addresses.{ImportRemote, Redirect, RedirectControl};
ghost use Rattle.page_meaning_tests.specs.Addresses.{UrlParams, UrlVariable};
ghost use Rattle.page_meaning_tests.specs.Attributes.{GivenAttribute, Parts};
ghost use Rattle.page_meaning_tests.specs.Beans.{AllProperties, ApplicationBean, Bean, BeanFaults};
ghost use Rattle.page_meaning_tests.specs.Bodies.{BodyInCallersFrame, CaughtInside, DependentBody};
ghost use Rattle.page_meaning_tests.specs.Bodies.{FaultInBody, Fragments, NestedBodies, NoBody};
ghost use Rattle.page_meaning_tests.specs.Buffers.{Broken, Committed, ExactlyFull, FullByTwo};
ghost use Rattle.page_meaning_tests.specs.Buffers.{OneOver, OverByTwo, Overflow, Unbuffered};
ghost use Rattle.page_meaning_tests.specs.Calls.{AbsentAtBegin, Alias, DynamicAttributes};
ghost use Rattle.page_meaning_tests.specs.Calls.{ForwardInTag, NestedCalls};
ghost use Rattle.page_meaning_tests.specs.Core.{CatchKeepsOutput, IfAndChoose, LookUpAwaits};
ghost use Rattle.page_meaning_tests.specs.Core.{NullInApplication, NullRemoves, OutDefault};
ghost use Rattle.page_meaning_tests.specs.Core.{OutEscapes, RemoveAwaits, RemoveInAll, SetBody};
ghost use Rattle.page_meaning_tests.specs.Core.{SetEntry};
ghost use Rattle.page_meaning_tests.specs.Faults.{ActionFaults, AddressFaults, LoopFaults};
ghost use Rattle.page_meaning_tests.specs.Faults.{ObjectFaults, OutFaults, PageFaults, SetFaults};
ghost use Rattle.page_meaning_tests.specs.Faults.{TestFaults};
ghost use Rattle.page_meaning_tests.specs.Functions.{EachFunction, FunctionFaults, IndexOfAbsent};
ghost use Rattle.page_meaning_tests.specs.Functions.{SplitAndJoin, SplitEmpty, Substring};
ghost use Rattle.page_meaning_tests.specs.Functions.{UpperCase};
ghost use Rattle.page_meaning_tests.specs.Includes.{Forward, ForwardLoop, Include, IncludeFault};
ghost use Rattle.page_meaning_tests.specs.Includes.{IncludeForward, IncludeRedirect};
ghost use Rattle.page_meaning_tests.specs.Loops.{EachFaultInside, EachFaults, EachList};
ghost use Rattle.page_meaning_tests.specs.Loops.{EachNumbers, EachRecord, EachToken};
ghost use Rattle.page_meaning_tests.specs.Objects.{ApplicationAwaits, ApplicationEntries};
ghost use Rattle.page_meaning_tests.specs.Objects.{ApplicationObject, ImplicitObjects, NoSession};
ghost use Rattle.page_meaning_tests.specs.Objects.{NotFound, ScopeObjects, SessionAttributes};
ghost use Rattle.page_meaning_tests.specs.Objects.{SessionAwaits, SessionGoesOn, SessionStarts};
ghost use Rattle.page_meaning_tests.specs.Operators.{DecimalText, EmptyText, FaultyPage};
ghost use Rattle.page_meaning_tests.specs.Operators.{JoinedTexts, ListText, NoNumber};
ghost use Rattle.page_meaning_tests.specs.Operators.{NumberAndText, OrderAsNumbers, OrderAsTexts};
ghost use Rattle.page_meaning_tests.specs.Operators.{OrderOfNull, RecordText, RemainderSign};
ghost use Rattle.page_meaning_tests.specs.Operators.{RightSideWaits, SumWraps};
ghost use Rattle.page_meaning_tests.specs.Requests.{AbsentErrorPage, AbsentFile, ErrorPage};
ghost use Rattle.page_meaning_tests.specs.Requests.{ErrorPageForwards, FaultInErrorPage, Hidden};
ghost use Rattle.page_meaning_tests.specs.Requests.{LateSession, LateSessionAwaits};
ghost use Rattle.page_meaning_tests.specs.Requests.{NoSessionCommitted, OneSession};
ghost use Rattle.page_meaning_tests.specs.Requests.{StaticErrorPage, StaticFile};

/// Operators and literals.
pub fn operators()
    ensures joined_texts { JoinedTexts }
    ensures remainder_sign { RemainderSign }
    ensures number_and_text { NumberAndText }
    ensures empty_text { EmptyText }
    ensures order_as_numbers { OrderAsNumbers }
    ensures order_as_texts { OrderAsTexts }
    ensures order_of_null { OrderOfNull }
    ensures sum_wraps { SumWraps }
    ensures no_number { NoNumber }
    ensures decimal_text { DecimalText }
    ensures faulty_page { FaultyPage }
    ensures list_text { ListText }
    ensures record_text { RecordText }
    ensures right_side_waits { RightSideWaits }
{}

/// Implicit objects, scopes and sessions.
pub fn objects()
    ensures session_starts { SessionStarts }
    ensures session_awaits { SessionAwaits }
    ensures session_goes_on { SessionGoesOn }
    ensures implicit_objects { ImplicitObjects }
    ensures scope_objects { ScopeObjects }
    ensures application_object { ApplicationObject }
    ensures application_entries { ApplicationEntries }
    ensures application_awaits { ApplicationAwaits }
    ensures not_found { NotFound }
    ensures no_session { NoSession }
    ensures session_attributes { SessionAttributes }
{}

/// Output, variables, catches and choices.
pub fn core()
    ensures out_escapes { OutEscapes }
    ensures null_in_application { NullInApplication }
    ensures remove_awaits { RemoveAwaits }
    ensures remove_in_all { RemoveInAll }
    ensures null_removes { NullRemoves }
    ensures look_up_awaits { LookUpAwaits }
    ensures catch_keeps_output { CatchKeepsOutput }
    ensures out_default { OutDefault }
    ensures set_body { SetBody }
    ensures set_entry { SetEntry }
    ensures if_and_choose { IfAndChoose }
{}

/// Loops.
pub fn loops()
    ensures each_list { EachList }
    ensures each_record { EachRecord }
    ensures each_numbers { EachNumbers }
    ensures each_faults { EachFaults }
    ensures each_fault_inside { EachFaultInside }
    ensures each_token { EachToken }
{}

/// Functions.
pub fn functions()
    ensures split_and_join { SplitAndJoin }
    ensures substring { Substring }
    ensures index_of_absent { IndexOfAbsent }
    ensures upper_case { UpperCase }
    ensures split_empty { SplitEmpty }
    ensures each_function { EachFunction }
    ensures function_faults { FunctionFaults }
{}

/// Addresses, redirects and imports.
pub fn addresses()
    ensures url_params { UrlParams }
    ensures redirect { Redirect }
    ensures redirect_control { RedirectControl }
    ensures url_variable { UrlVariable }
    ensures import_remote { ImportRemote }
{}

/// Values of attributes.
pub fn attributes()
    ensures parts { Parts }
    ensures given_attribute { GivenAttribute }
{}

/// Beans.
pub fn beans()
    ensures all_properties { AllProperties }
    ensures bean { Bean }
    ensures application_bean { ApplicationBean }
    ensures bean_faults { BeanFaults }
{}

/// Includes and forwards.
pub fn includes()
    ensures forward { Forward }
    ensures include { Include }
    ensures include_fault { IncludeFault }
    ensures include_redirect { IncludeRedirect }
    ensures include_forward { IncludeForward }
    ensures forward_loop { ForwardLoop }
{}

/// Calls of tag files.
pub fn calls()
    ensures nested_calls { NestedCalls }
    ensures dynamic_attributes { DynamicAttributes }
    ensures alias { Alias }
    ensures absent_at_begin { AbsentAtBegin }
    ensures forward_in_tag { ForwardInTag }
{}

/// Bodies and fragments of calls.
pub fn bodies()
    ensures body_in_callers_frame { BodyInCallersFrame }
    ensures fragments { Fragments }
    ensures dependent_body { DependentBody }
    ensures no_body { NoBody }
    ensures fault_in_body { FaultInBody }
    ensures caught_inside { CaughtInside }
    ensures nested_bodies { NestedBodies }
{}

/// Buffers and commits.
pub fn buffers()
    ensures exactly_full { ExactlyFull }
    ensures one_over { OneOver }
    ensures committed { Committed }
    ensures broken { Broken }
    ensures full_by_two { FullByTwo }
    ensures over_by_two { OverByTwo }
    ensures overflow { Overflow }
    ensures unbuffered { Unbuffered }
{}

/// Requests: error pages, sessions and files.
pub fn requests()
    ensures error_page { ErrorPage }
    ensures one_session { OneSession }
    ensures late_session { LateSession }
    ensures late_session_awaits { LateSessionAwaits }
    ensures no_session_committed { NoSessionCommitted }
    ensures fault_in_error_page { FaultInErrorPage }
    ensures static_error_page { StaticErrorPage }
    ensures absent_error_page { AbsentErrorPage }
    ensures error_page_forwards { ErrorPageForwards }
    ensures hidden { Hidden }
    ensures absent_file { AbsentFile }
    ensures static_file { StaticFile }
{}

/// Faults of tags, actions and objects, with their places.
pub fn faults()
    ensures out_faults { OutFaults }
    ensures set_faults { SetFaults }
    ensures test_faults { TestFaults }
    ensures loop_faults { LoopFaults }
    ensures address_faults { AddressFaults }
    ensures page_faults { PageFaults }
    ensures action_faults { ActionFaults }
    ensures object_faults { ObjectFaults }
{}
