// The last time, and ids by their p = time * 4096 + block: what document 01's four rounds give, worked out apart from
// the code that is tried here.

// The last time, 2^40 - 1, and the number after it.
pub(crate) const LAST: u64 = 1099511627775;

pub(crate) const OVER: u64 = 1099511627776;

// block 1 at time 0
pub(crate) const P1: u64 = 17889012238656716063;
// block 0 at time 1
pub(crate) const P4096: u64 = 2926653666759929856;
// block 1 at time 2
pub(crate) const P8193: u64 = 5295575489877089567;
// block 2 at time 3
pub(crate) const P12290: u64 = 7664497312994249278;
// block 3 at time 4
pub(crate) const P16387: u64 = 10033419136111408989;
// block 0 at time 5
pub(crate) const P20480: u64 = 14633268316619780096;
// block 4 at time 5
pub(crate) const P20484: u64 = 12402340959228568700;
// block 1 at time 6
pub(crate) const P24577: u64 = 17002190139736939807;
// block 5 at time 6
pub(crate) const P24581: u64 = 14771262782345728411;
// block 6 at time 7
pub(crate) const P28678: u64 = 17140184605462888122;
// block 7 at time 8
pub(crate) const P32775: u64 = 1062362359165463513;
// block 3 at time 9
pub(crate) const P36867: u64 = 6219943374726670173;
// block 5 at time 11
pub(crate) const P45061: u64 = 10957787020960989595;
// block 0 at time 99
pub(crate) const P405504: u64 = 13037551486977953792;
// block 0 at time 100
pub(crate) const P409600: u64 = 15964205149442916352;
// block 1 at time 100
pub(crate) const P409601: u64 = 15406473310095113503;
// block 2 at time 100
pub(crate) const P409602: u64 = 14848741470747310654;
// block 8 at time 100
pub(crate) const P409608: u64 = 11502350438955460856;
// block 0 at time 101
pub(crate) const P413696: u64 = 444114738198327296;
// block 1 at time 101
pub(crate) const P413697: u64 = 18333126972560076063;
// block 0 at time 102
pub(crate) const P417792: u64 = 3370768400663289856;
// block 2 at time 102
pub(crate) const P417794: u64 = 2255304721967684158;
// block 2 at time 104
pub(crate) const P425986: u64 = 8108612046897609278;
// block 1 at time 110
pub(crate) const P450561: u64 = 7779521787325635871;
// block 0 at time 2^40 - 1
pub(crate) const P4503599627366400: u64 = 13517641850293444773;
// block 0 at time 2^40
pub(crate) const P4503599627370496: u64 = 414331169840037888;
