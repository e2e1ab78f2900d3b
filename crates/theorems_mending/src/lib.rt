// No code: that a document put right is lexed token by token, without a broken string, and stays as it is when put right
// again, are theorems. Read specs/Mended.antt.
#![tactic(auto)]
