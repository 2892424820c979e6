#![tactic(auto)]

// No function: demands 2 and 3 of document 01 and the requests C-11, C-12, C-14 and C-15 of document 02 as theorems over the contracts of the page call, the
// set query, the text reader, the edits, the count of the degrees and the call that packs.
