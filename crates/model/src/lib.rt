// What a reading is, apart from code: how rounds and calls change it.
#![tactic(auto)]
