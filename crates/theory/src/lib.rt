//! The theorems, each named in the contract of a function, so that a check asks for its proof.
#![tactic(auto)]

ghost use Rattle.rules.specs.Laws.{SameBothWays, Cross, Squares, LocalLaw, PartsAlike, RoundedUp, ValuesListed, PointsListed, PointsAreCorners};
ghost use Rattle.rules.specs.Promises.{Below, DenominatorsAbove, FinerLawful, CarriedThere, FieldsCarried, StreamsCarried, HoweverFine, Printed, Between, PrintedCarried, Bracketed, PartedMeans, NotPartedMeans, GroupsJoined, GroupsKept, GroupsAlike};
ghost use Rattle.rules.specs.Calls.{ReadAsWritten, AnswersBracket, FinerTaken, CarriedTaken, CarriedFourTimes};
ghost use Rattle.rules.specs.Table.{TableHolds};

/// Two numbers are the same, as the definitions test it, just where each is at most the other.
pub fn equal_numbers_are_at_most_each_other()
    ensures { SameBothWays }
{}

/// What a field spends and a stream drags in one triangle add up to at least their exchange along its edges.
pub fn law_of_one_triangle()
    ensures law { LocalLaw }
    ensures cross { Cross }
    ensures squares { Squares }
{}

/// The four parts of a triangle are alike: for carried values each has the whole's turned gradient and area.
pub fn parts_are_alike()
    ensures { PartsAlike }
{}

/// Rounded up, a triangle's quotients are on the safe side of what it spends and drags.
pub fn rounding_is_safe()
    ensures { RoundedUp }
{}

/// Values in a row belong to the points in their order; no two of these are the same, and they are just the corners of the triangles.
pub fn values_are_listed()
    ensures listed { ValuesListed }
    ensures points { PointsListed }
    ensures corners { PointsAreCorners }
{}

/// No field on a lawful plate spends less than any stream says, both being fractions with a denominator above 0.
pub fn no_field_spends_less()
    ensures below { Below }
    ensures denominators { DenominatorsAbove }
{}

/// A finer plate of a lawful one is lawful, and whatever stands at the coarse one's points can be carried to it.
pub fn finer_plates_are_lawful()
    ensures lawful { FinerLawful }
    ensures carried { CarriedThere }
{}

/// A field carried to the finer plate is a field, and a stream a stream; all that is spent, said and printed is four times as large.
pub fn carried_values_are_four_times()
    ensures fields { FieldsCarried }
    ensures streams { StreamsCarried }
    ensures printed { PrintedCarried }
{}

/// However fine a plate is made, and whatever field is taken there, it spends at least what a stream on the coarse plate says.
pub fn however_fine()
    ensures { HoweverFine }
{}

/// The upper number is never below what the field spends, the lower one never above what the stream says.
pub fn printed_numbers_are_safe()
    ensures { Printed }
{}

/// The lower number at any fineness is at most the upper one at any other. No field of any fineness spends less than the lower number,
/// and no stream says more than the upper one, to scale.
pub fn printed_numbers_bracket()
    ensures between { Between }
    ensures bracketed { Bracketed }
{}

/// Two parted triangles have no inner point in common.
pub fn parted_triangles_share_no_inner_point()
    ensures { PartedMeans }
{}

/// Two proper triangles that are not parted have an inner point in common.
pub fn not_parted_triangles_share_an_inner_point()
    ensures { NotPartedMeans }
{}

/// A group is just the points that closed edges join to one; a stream has one value there, and is a stream with all of it changed.
pub fn groups_are_joined_points()
    ensures joined { GroupsJoined }
    ensures kept { GroupsKept }
    ensures alike { GroupsAlike }
{}

/// Of plates and values as rows of numbers: a plate is read as it was written; where nothing is refused the two numbers bracket; a finer
/// plate is lawful, what is carried to it is a field or a stream there, and their numbers are four times as large.
pub fn rows_of_numbers_keep_the_promise()
    ensures read { ReadAsWritten }
    ensures bracket { AnswersBracket }
    ensures finer { FinerTaken }
    ensures carried { CarriedTaken }
    ensures four { CarriedFourTimes }
{}

/// The definitions give what the table of cases says.
pub fn table_of_cases()
    ensures { TableHolds }
{}
