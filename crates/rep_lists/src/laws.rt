//! Laws of lists in rising order of key.
ghost use Rattle.rep_lists.specs.RisingLaws.{FindsWhatWasPut, PutsUnderOneKey, TakesAllOfAKey, TakesUnderOneKey, FindsTellAll};

/// A rising list is a map from keys: a put and a take change what is found under one key alone, and what is found
/// under each key determines the list.
pub fn rising_list_laws<X, K>()
    ensures put { FindsWhatWasPut X K }
    ensures put_other { PutsUnderOneKey X K }
    ensures take { TakesAllOfAKey X K }
    ensures take_other { TakesUnderOneKey X K }
    ensures same { FindsTellAll X K }
{}
